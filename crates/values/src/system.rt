// What the simulator asks of the values on lines.
ghost use Rattle.std.specs.Prelude.{◌≡◌, ◌↔◌, Decides};
ghost use Rattle.values.specs.Systems.{System};

use crate::element::Element;

// Each value means one member of the system's own set, `Sense`, and what a function answers means what the system makes
// of the operands' meanings. Nothing else is known of values.
pub trait ValueSystem: Element {
    ghost Sense: { Type 0 };

    ghost meaning: { Self → Sense };

    ghost system: { System Sense };

    ghost START: { Self };

    // The value of a looped line before anything happens.
    const START: Self;

    fn not(self) -> Self
        ensures answers_not { meaning result ≡ system.not (meaning self) };

    fn and(self, other: Self) -> Self
        ensures answers_and { meaning result ≡ system.and (meaning self) (meaning other) };

    fn or(self, other: Self) -> Self
        ensures answers_or { meaning result ≡ system.or (meaning self) (meaning other) };

    fn xor(self, other: Self) -> Self
        ensures answers_xor { meaning result ≡ system.xor (meaning self) (meaning other) };

    // Whether two values mean the same. So does the comparison of elements, for any two.
    fn same(self, other: Self) -> bool
        ensures decides_equal_meanings { Decides result (meaning self ≡ meaning other) }
        ensures elements_are_compared_so { (a b : Self) → Self.Alike a b ↔ (meaning a ≡ meaning b) };

    ghost start_means: { meaning START ≡ system.start };
}
