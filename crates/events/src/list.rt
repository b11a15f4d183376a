// Events to be recorded.
ghost use Rattle.std.specs.Prelude.{◌≡◌, ◌<◌, ◌≤◌, ◌-◌, suc, take, drop, [], ◌∷◌, ◌++◌, length, replicate, MatchOption};
ghost use Rattle.std.specs.List.Sorted.{IsNonDecreasingBy};
ghost use Rattle.events.specs.Recording.{Recorded, Dropped};

use crate::record::EventRecord;
use crate::records::{drop_below, fill};
use values::element::Element;

// Events in lent records: a base, the kept changes after it, the earliest first, and then spare records.
#[derive(Drop)]
pub struct EventList<'a, E> {
    pub records: &'a mut [EventRecord<E>],
    pub kept: usize,
    pub ghost within: { kept < length records.now },
}

impl<'a, E: Element> EventList<'a, E> {
    ghost use Rattle.events.specs.Lists.{shown, spare};

    // From a tick on there is a value: if it is another than the last, a change is added, if there is a spare record for it.
    pub fn record(&mut self, tick: u32, value: E) -> bool
        ensures same_records { self.new.records.ghost_name ≡ self.old.records.ghost_name }
        ensures recorded { Recorded E.Alike (shown self.old) (spare self.old) (record { tick = tick; value = value }) result (shown self.new) (spare self.new) }
    {
        if self.records[self.kept].value.alike(value) {
            return true;
        }
        if self.kept + 1 == self.records.len() {
            return false;
        }
        self.kept += 1;
        self.records[self.kept] = EventRecord { tick, value };
        true
    }

    // Forgets all events, and begins with a base; the other records are filled.
    pub fn clear(&mut self, base: EventRecord<E>, filler: EventRecord<E>)
        ensures same_records { self.new.records.ghost_name ≡ self.old.records.ghost_name }
        ensures begins { shown self.new ≡ base ∷ [] }
        ensures fills { spare self.new ≡ replicate (length self.old.records.now - 1) filler }
    {
        self.kept = 0;
        let end = self.records.len();
        fill(self.records, 0, end, filler);
        self.records[0] = base;
    }

    // Drops the changes below a tick. The base tells from now on what was the value just before it; the records that come
    // free are filled.
    pub fn drop_below(&mut self, tick: u32, filler: EventRecord<E>)
        ensures same_records { self.new.records.ghost_name ≡ self.old.records.ghost_name }
        ensures dropped { IsNonDecreasingBy (λ change. change.tick) (drop 1 (shown self.old)) → Dropped tick filler (shown self.old) (spare self.old) (shown self.new) (spare self.new) }
    {
        self.kept = drop_below(self.records, self.kept, tick, filler);
    }
}
