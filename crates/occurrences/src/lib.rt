// At which places of a list an item stands.
#![tactic(auto)]

ghost use Rattle.std.specs.Prelude.{◌≡◌, ◌<◌, IfSome};
ghost use Rattle.occurrences.specs.Items.{Last, Before};

use std::marker::Model;

// How many places a list has.
pub const PLACES: usize = 1024;

// The greatest item whose places are known.
const MOST: usize = 1024;

// A list of 1,024 items; of each item, the last place at which it stands; and of each place, the one before it with the same
// item. Items are numbers up to 1,024; of others no place is known.
#[derive(Drop)]
pub struct Occurrences {
    items: [u32; PLACES],
    last: [Option<u16>; MOST + 1],
    before: [Option<u16>; PLACES],
}

impl Model for Occurrences {
    ghost use Rattle.std.specs.Prelude.{◌≡◌, ℕ, List, length};
    ghost use Rattle.occurrences.specs.Items.{LastFound, BeforeFound};

    ghost Value = { List ℕ };

    ghost view = { λ o. o.items };

    ghost invariant = { λ o. (length o.items ≡ 1024) × LastFound o.items 1024 o.last × BeforeFound o.items 1024 o.before };
}

impl Occurrences {
    // Where the items of a list stand.
    pub fn new(items: [u32; PLACES]) -> Occurrences
        ensures { result ≡ items }
    {
        let mut last = [None; MOST + 1];
        let mut before = [None; PLACES];
        for place in 0..PLACES {
            let item = items[place] as usize;
            if item <= MOST {
                before[place] = last[item];
                last[item] = Some(place as u16);
            }
        }
        Occurrences {
            items,
            last,
            before,
        }
    }

    // The last place of an item.
    pub fn last(&self, item: u32) -> Option<usize>
        ensures answers { Last self.now item result }
        ensures within { IfSome result (λ place. place < 1024) }
    {
        match self.last.get(item as usize) {
            Some(Some(place)) => Some(*place as usize),
            _ => None,
        }
    }

    // The place before a place, of the same item.
    pub fn before(&self, place: usize) -> Option<usize>
        ensures answers { Before self.now place result }
        ensures within { IfSome result (λ place. place < 1024) }
    {
        match self.before.get(place) {
            Some(Some(place)) => Some(*place as usize),
            _ => None,
        }
    }
}
