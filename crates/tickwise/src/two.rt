// Two values: a bit.
use crate::value::Value;

#[derive(Clone, Copy, PartialEq, Eq, Debug)]
pub struct Two(pub bool);

impl Value for Two {
    const START: Two = Two(false);

    fn not(self) -> Two {
        Two(self.0 == false)
    }

    fn and(self, other: Two) -> Two {
        Two(self.0 && other.0)
    }

    fn or(self, other: Two) -> Two {
        Two(self.0 || other.0)
    }

    fn xor(self, other: Two) -> Two {
        Two(self.0 != other.0)
    }

    fn same(self, other: Two) -> bool {
        self.0 == other.0
    }
}
