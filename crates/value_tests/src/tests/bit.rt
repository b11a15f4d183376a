// Two values.
use std::test::Fail;
use values::bit::Bit;
use values::element::Element;
use values::system::ValueSystem;

#[test]
fn answers_at_all_pairs(rt: HostRuntime) -> Result<(), Fail> {
    let pairs = [
        (false, false, false, false, false),
        (false, true, false, true, true),
        (true, false, false, true, true),
        (true, true, true, true, false),
    ];
    for (left, right, and, or, xor) in pairs {
        let (a, b) = (Bit(left), Bit(right));
        assert_eq!(rt; a.and(b), Bit(and), "{a} AND {b}");
        assert_eq!(rt; a.or(b), Bit(or), "{a} OR {b}");
        assert_eq!(rt; a.xor(b), Bit(xor), "{a} XOR {b}");
        assert_eq!(rt; a.not(), Bit(!left), "NOT {a}");
        assert_eq!(rt; a.same(b), left == right, "{a} SAME {b}");
        assert_eq!(rt; a.alike(b), left == right, "{a} alike {b}");
    }
    assert_eq!(rt; Bit::START, Bit(false));
    Ok(())
}
