// 64 two-valued bits side by side in a word.
ghost use Rattle.std.specs.Prelude.{◌≡◌, ◌==◌, Bool, Some};
ghost use Rattle.std.proofs.Common.{ap};
ghost use Rattle.std.proofs.Math.Path.{fun_ext};
ghost use Rattle.std.proofs.lemmas.Nat.Bits.{bit_at-zero};
ghost use Rattle.values.specs.Lanes.{lanes, bits_of, hexadecimal};
ghost use Rattle.values.specs.declared.lane.Lane.{Lane};

use crate::bit::Bit;
use crate::element::Element;
use crate::lane::Lane;
use crate::system::ValueSystem;
use std::fmt;

#[derive(Clone, Copy, PartialEq, Eq, Debug)]
pub struct Lanes(pub u64);

impl Lanes {
    #[tactic(auto, unfolding(crate::specs::Lanes::bits_of))]
    pub fn bit(self, lane: Lane) -> Bit
        ensures is_that_of_the_lane { result.0 ≡ bits_of self lane }
    {
        Bit(self.0 >> lane.place & 1 == 1)
    }
}

impl Element for Lanes {
    ghost Alike = { λ a b. bits_of a ≡ bits_of b };

    #[tactic(auto, using(crate::proofs::Words::same_word))]
    fn alike(self, other: Self) -> bool {
        self == other
    }
}

// A word means its 64 bits: a bit for each lane.
impl ValueSystem for Lanes {
    ghost Sense = { Lane → Bool };

    ghost meaning = { bits_of };

    ghost system = { lanes };

    ghost START = { record { 0 = 0 } };

    ghost start_means = { unfold bits_of in fun_ext (λ lane. ap (λ digit. digit == 1) (bit_at-zero lane.place)) };

    const START: Self = Lanes(0);

    #[tactic(auto, using(crate::proofs::Words::not_bits))]
    fn not(self) -> Self {
        Lanes(!self.0)
    }

    #[tactic(auto, using(crate::proofs::Words::and_bits))]
    fn and(self, other: Self) -> Self {
        Lanes(self.0 & other.0)
    }

    #[tactic(auto, using(crate::proofs::Words::or_bits))]
    fn or(self, other: Self) -> Self {
        Lanes(self.0 | other.0)
    }

    #[tactic(auto, using(crate::proofs::Words::xor_bits))]
    fn xor(self, other: Self) -> Self {
        Lanes(self.0 ^ other.0)
    }

    fn same(self, other: Self) -> bool {
        self.alike(other)
    }
}

// The word in hexadecimal.
impl fmt::Display for Lanes {
    ghost output = { λ word. Some (hexadecimal word) };

    #[tactic(auto, using(crate::proofs::Hexadecimal::laid_out))]
    fn fmt<W: fmt::Write>(&self, f: &mut fmt::Formatter<W>) -> fmt::Result {
        write!(f, "{:016x}", self.0)
    }
}
