// Events to be read.
ghost use Rattle.std.specs.Prelude.{◌≡◌, ◌∷◌, length, min, MatchOption, slice_index_or};
ghost use Rattle.std.specs.List.Sorted.{IsNonDecreasingBy};
ghost use Rattle.events.specs.Orders.{AreAround};

use crate::record::EventRecord;
use crate::records::changes_up_to;
use values::element::Element;

// What is kept of some events: a base, and the kept changes after it, the earliest first.
#[derive(Clone, Copy, Debug)]
pub struct Events<'a, E> {
    pub base: EventRecord<E>,
    pub changes: &'a [EventRecord<E>],
}

// Two events next to each other, of which the second may be absent.
#[derive(Clone, Copy, PartialEq, Eq, Debug)]
pub struct Around<E> {
    pub last: EventRecord<E>,
    pub next: Option<EventRecord<E>>,
}

impl<E: Element> Around<E> {
    // The tick of the second, or a limit where it comes no sooner.
    pub fn until(&self, limit: u32) -> u32
        ensures { MatchOption self.now.next (result ≡ limit) (λ next. result ≡ min next.tick limit) }
    {
        match self.next {
            Some(next) => next.tick.min(limit),
            None => limit,
        }
    }
}

impl<'a, E: Element> Events<'a, E> {
    // The last change, or the base where there is none.
    pub fn last(&self) -> EventRecord<E>
        ensures { result ≡ slice_index_or (self.now.base ∷ self.now.changes.now) (length self.now.changes.now) self.now.base }
    {
        self.changes.last().copied().unwrap_or(self.base)
    }

    // The events around a tick: the last at or before it, or the base where there is none, and the first after it.
    pub fn around(&self, tick: u32) -> Around<E>
        ensures { IsNonDecreasingBy (λ change. change.tick) self.now.changes.now → AreAround self.now.base self.now.changes.now tick result }
    {
        let place = changes_up_to(self.changes, tick);
        Around {
            last: match place.checked_sub(1) {
                Some(before) => self.changes[before],
                None => self.base,
            },
            next: self.changes.get(place).copied(),
        }
    }
}
