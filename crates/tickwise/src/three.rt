// Three values: the bits that a bit may be, of which at least one is possible.
use crate::value::Value;

#[derive(Clone, Copy, PartialEq, Eq, Debug)]
pub struct Three {
    pub can_be_zero: bool,
    pub can_be_one: bool,
}

// What two bits can be.
const PAIRS: [(bool, bool); 4] = [(false, false), (false, true), (true, false), (true, true)];

// The functions of two bits.
#[derive(Clone, Copy)]
enum Function {
    And,
    Or,
    Xor,
}

impl Function {
    fn of(self, left: bool, right: bool) -> bool {
        match self {
            Function::And => left && right,
            Function::Or => left || right,
            Function::Xor => left != right,
        }
    }
}

impl Three {
    pub const ZERO: Three = Three {
        can_be_zero: true,
        can_be_one: false,
    };

    pub const ONE: Three = Three {
        can_be_zero: false,
        can_be_one: true,
    };

    pub const UNKNOWN: Three = Three {
        can_be_zero: true,
        can_be_one: true,
    };

    fn can_be(self, bit: bool) -> bool {
        if bit {
            self.can_be_one
        } else {
            self.can_be_zero
        }
    }

    // What a function can give, over all bits that its operands can be.
    fn all(self, other: Three, function: Function) -> Three {
        let mut can_be_zero = false;
        let mut can_be_one = false;
        for (left, right) in PAIRS {
            if self.can_be(left) && other.can_be(right) {
                match function.of(left, right) {
                    true => can_be_one = true,
                    false => can_be_zero = true,
                }
            }
        }
        Three {
            can_be_zero,
            can_be_one,
        }
    }
}

impl Value for Three {
    const START: Three = Three::UNKNOWN;

    fn not(self) -> Three {
        Three {
            can_be_zero: self.can_be_one,
            can_be_one: self.can_be_zero,
        }
    }

    fn and(self, other: Three) -> Three {
        self.all(other, Function::And)
    }

    fn or(self, other: Three) -> Three {
        self.all(other, Function::Or)
    }

    fn xor(self, other: Three) -> Three {
        self.all(other, Function::Xor)
    }

    fn same(self, other: Three) -> bool {
        self.can_be_zero == other.can_be_zero && self.can_be_one == other.can_be_one
    }
}
