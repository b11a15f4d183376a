// What stands on a line at a tick.

pub trait Value: Copy {
    // What a looped line begins with.
    const START: Self;

    fn not(self) -> Self;

    fn and(self, other: Self) -> Self;

    fn or(self, other: Self) -> Self;

    fn xor(self, other: Self) -> Self;

    fn same(self, other: Self) -> bool;
}
