// One lane of a word of bits.
ghost use Rattle.std.specs.Prelude.{◌≡◌, ◌<◌, ◌≤◌, MatchOption};

use crate::bit::Bit;
use crate::lanes::Lanes;
use crate::relation::Relation;

// A place in a word of 64 bits, counted from 0 at the lowest.
#[derive(Clone, Copy, PartialEq, Eq, Debug)]
pub struct Lane {
    pub place: u8,
    pub ghost in_word: { place < 64 },
}

impl Lane {
    pub fn new(place: u8) -> Option<Self>
        ensures just_the_places_in_a_word { MatchOption result (64 ≤ place) (λ lane. lane.place ≡ place) }
    {
        if place < 64 {
            Some(Lane { place })
        } else {
            None
        }
    }
}

// A word is tied to the bit that it has in the lane.
impl Relation<Lanes, Bit> for Lane {
    ghost use Rattle.values.specs.Lanes.{bits_of};

    ghost Ties = { λ lane word bit. bits_of word lane ≡ bit.0 };

    #[tactic(auto, using(crate::proofs::Places::lane_decided, crate::proofs::Places::lane_kept))]
    fn ties(&self, left: Lanes, right: Bit) -> bool {
        left.bit(*self) == right
    }
}
