// Two values: 0 and 1.
ghost use Rattle.std.specs.Prelude.{◌≡◌, Bool, false, refl, codes, cond, Some};
ghost use Rattle.values.specs.Systems.{two_valued};
ghost use Rattle.values.specs.declared.bit.Bit.{Bit};

use crate::element::Element;
use crate::system::ValueSystem;
use std::fmt;

#[derive(Clone, Copy, PartialEq, Eq, Debug)]
pub struct Bit(pub bool);

impl Element for Bit {
    ghost Alike = { λ a b. a ≡ b };

    fn alike(self, other: Self) -> bool {
        self == other
    }
}

impl ValueSystem for Bit {
    ghost Sense = { Bool };

    ghost meaning = { λ bit. bit.0 };

    ghost system = { two_valued };

    ghost START = { record { 0 = false } };

    ghost start_means = { refl };

    const START: Self = Bit(false);

    fn not(self) -> Self {
        Bit(!self.0)
    }

    fn and(self, other: Self) -> Self {
        Bit(self.0 & other.0)
    }

    fn or(self, other: Self) -> Self {
        Bit(self.0 | other.0)
    }

    fn xor(self, other: Self) -> Self {
        Bit(self.0 ^ other.0)
    }

    fn same(self, other: Self) -> bool {
        self.alike(other)
    }
}

impl fmt::Display for Bit {
    ghost output = { λ bit. Some (cond bit.0 (codes "1") (codes "0")) };

    fn fmt<W: fmt::Write>(&self, f: &mut fmt::Formatter<W>) -> fmt::Result {
        f.write_str(if self.0 { "1" } else { "0" })
    }
}
