// Three values: 0, 1 and X, a bit that is not known.
ghost use Rattle.std.specs.Prelude.{◌≡◌, Decides, Contains, Some, refl};
ghost use Rattle.values.specs.Knowledge.{three_valued, stands_for, letter};
ghost use Rattle.values.specs.declared.ternary.Ternary.{Ternary};
ghost use Rattle.values.specs.declared.ternary.Ternary.TheVariants.{X};

use crate::bit::Bit;
use crate::element::Element;
use crate::system::ValueSystem;
use std::fmt;

#[derive(Clone, Copy, PartialEq, Eq, Debug)]
pub enum Ternary {
    Zero,
    One,
    X,
}

use Ternary::{One, X, Zero};

// Tables of the functions, by the codes of the operands: 0, 1, and 2 for X.
const NOT: [Ternary; 3] = [One, Zero, X];

const AND: [[Ternary; 3]; 3] = [[Zero, Zero, Zero], [Zero, One, X], [Zero, X, X]];

const OR: [[Ternary; 3]; 3] = [[Zero, One, X], [One, One, One], [X, One, X]];

const XOR: [[Ternary; 3]; 3] = [[Zero, One, X], [One, Zero, X], [X, X, X]];

impl Ternary {
    // Whether the value stands for that bit: 0 and 1 for themselves, X for both.
    #[tactic(auto, using(crate::proofs::Knowledge::either))]
    pub fn stands_for(self, bit: Bit) -> bool
        ensures decides_a_bit_it_may_be { Decides result (Contains (stands_for self) bit.0) }
    {
        match self {
            Zero => !bit.0,
            One => bit.0,
            X => true,
        }
    }
}

impl Element for Ternary {
    ghost Alike = { λ a b. a ≡ b };

    fn alike(self, other: Self) -> bool {
        self == other
    }
}

impl ValueSystem for Ternary {
    ghost Sense = { Ternary };

    ghost meaning = { λ value. value };

    ghost system = { three_valued };

    ghost START = { X };

    ghost start_means = { refl };

    const START: Self = X;

    fn not(self) -> Self {
        NOT[self as usize]
    }

    fn and(self, other: Self) -> Self {
        AND[self as usize][other as usize]
    }

    fn or(self, other: Self) -> Self {
        OR[self as usize][other as usize]
    }

    fn xor(self, other: Self) -> Self {
        XOR[self as usize][other as usize]
    }

    fn same(self, other: Self) -> bool {
        self.alike(other)
    }
}

impl fmt::Display for Ternary {
    ghost output = { λ value. Some (letter value) };

    fn fmt<W: fmt::Write>(&self, f: &mut fmt::Formatter<W>) -> fmt::Result {
        f.write_str(match self {
            Zero => "0",
            One => "1",
            X => "X",
        })
    }
}
