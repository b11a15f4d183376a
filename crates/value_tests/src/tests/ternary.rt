// Three values, and the bits that they stand for.
use std::test::Fail;
use values::bit::Bit;
use values::element::Element;
use values::relation::Relation;
use values::stands_for::StandsFor;
use values::system::ValueSystem;
use values::ternary::Ternary;
use values::ternary::Ternary::{One, X, Zero};

#[test]
fn answers_at_all_pairs(rt: HostRuntime) -> Result<(), Fail> {
    // Two operands, then AND, OR and XOR of them.
    let pairs = [
        (Zero, Zero, Zero, Zero, Zero),
        (Zero, One, Zero, One, One),
        (Zero, X, Zero, X, X),
        (One, Zero, Zero, One, One),
        (One, One, One, One, Zero),
        (One, X, X, One, X),
        (X, Zero, Zero, X, X),
        (X, One, X, One, X),
        (X, X, X, X, X),
    ];
    for (left, right, and, or, xor) in pairs {
        assert_eq!(rt; left.and(right), and, "{left} AND {right}");
        assert_eq!(rt; left.or(right), or, "{left} OR {right}");
        assert_eq!(rt; left.xor(right), xor, "{left} XOR {right}");
        assert_eq!(rt; left.same(right), left == right, "{left} SAME {right}");
        assert_eq!(rt; left.alike(right), left == right, "{left} alike {right}");
    }
    for (value, not) in [(Zero, One), (One, Zero), (X, X)] {
        assert_eq!(rt; value.not(), not, "NOT {value}");
    }
    assert_eq!(rt; Ternary::START, X);
    Ok(())
}

#[test]
fn bits_that_values_stand_for(rt: HostRuntime) -> Result<(), Fail> {
    let tied = [
        (Zero, false, true),
        (Zero, true, false),
        (One, false, false),
        (One, true, true),
        (X, false, true),
        (X, true, true),
    ];
    for (value, bit, expected) in tied {
        let bit = Bit(bit);
        assert_eq!(rt; value.stands_for(bit), expected, "{value} and {bit}");
        assert_eq!(rt; StandsFor.ties(value, bit), expected, "{value} and {bit}");
    }
    assert!(rt; StandsFor.ties(Ternary::START, Bit::START));
    Ok(())
}
