// Lanes: the 64 bits of a word.
use crate::value::Value;

#[derive(Clone, Copy, PartialEq, Eq, Debug)]
pub struct Word(pub u64);

impl Value for Word {
    const START: Word = Word(0);

    fn not(self) -> Word {
        Word(self.0 ^ u64::MAX)
    }

    // The bits that are in neither complement.
    fn and(self, other: Word) -> Word {
        Word(!(!self.0 | !other.0))
    }

    fn or(self, other: Word) -> Word {
        Word(!(!self.0 & !other.0))
    }

    // The bits that are in one, and not in both.
    fn xor(self, other: Word) -> Word {
        Word((self.0 | other.0) & !(self.0 & other.0))
    }

    fn same(self, other: Word) -> bool {
        self.0 == other.0
    }
}
