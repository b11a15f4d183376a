// What gates show of one to four operands.
use gates::{gate, gates_tied};
use netlist::kind::Kind;
use netlist::kind::Kind::{And, Buf, Nand, Nor, Not, Or, Xnor, Xor};
use std::process::Abort;
use std::test::Fail;
use values::bit::Bit;
use values::lane::Lane;
use values::lanes::Lanes;
use values::stands_for::StandsFor;
use values::ternary::Ternary;
use values::ternary::Ternary::{One, X, Zero};

const KINDS: [Kind; 8] = [Buf, Not, And, Or, Xor, Nand, Nor, Xnor];

#[test]
fn gates_of_three_values(rt: HostRuntime) -> Result<(), Fail> {
    let gates: [(Kind, &[Ternary], Ternary); 20] = [
        (Buf, &[One], One),
        (Buf, &[X], X),
        (Not, &[Zero], One),
        (Not, &[X], X),
        (And, &[One, One, One, One], One),
        (And, &[X, One, One, Zero], Zero),
        (Nand, &[X, X, Zero], One),
        (Nand, &[One, One, X], X),
        (Or, &[Zero, Zero, X], X),
        (Or, &[Zero, X, X, One], One),
        (Nor, &[Zero, Zero], One),
        (Nor, &[Zero, Zero, One], Zero),
        // Parity, and not that just one is 1.
        (Xor, &[One, One, One], One),
        (Xor, &[One, One, Zero], Zero),
        (Xor, &[One, Zero, Zero, Zero], One),
        (Xor, &[One, One, One, One], Zero),
        (Xor, &[One, One, X], X),
        (Xnor, &[One, One, One], Zero),
        (Xnor, &[Zero, Zero, Zero], One),
        (Xnor, &[X, X], X),
    ];
    for (kind, operands, shown) in gates {
        assert_eq!(rt; gate(kind, operands), shown, "{kind}");
    }
    for kind in KINDS {
        assert_eq!(rt; gate::<Ternary>(kind, &[]), X, "{kind} of nothing");
    }
    Ok(())
}

// Bits that the values may be, and a gate that shows a bit which its value may be.
fn check_three(rt: &impl Abort, kind: Kind, bits: [bool; 3]) {
    let [a, b, c] = bits.map(Bit);
    let known = bits.map(|bit| if bit { One } else { Zero });
    assert!(rt; gates_tied(&StandsFor, kind, &known, &[a, b, c]), "{kind}");
    assert!(rt;
        gates_tied(&StandsFor, kind, &[X, known[1], X], &[a, b, c]),
        "{kind}"
    );
    assert!(rt;
        gates_tied(&StandsFor, kind, &[known[0], X, known[2]], &[a, b, c]),
        "{kind}"
    );
}

#[test]
fn gates_of_tied_operands(rt: HostRuntime) -> Result<(), Fail> {
    let words = [Lanes(0xaa), Lanes(0xcc), Lanes(0xf0)];
    for kind in KINDS {
        for lane in (0..8).filter_map(Lane::new) {
            let bits = words.map(|word| word.bit(lane));
            assert!(rt; gates_tied(&lane, kind, &words, &bits), "{kind}");
            check_three(&rt, kind, bits.map(|bit| bit.0));
        }
    }
    assert!(rt; !gates_tied(&StandsFor, And, &[One, One], &[Bit(true), Bit(false)]));
    Ok(())
}
