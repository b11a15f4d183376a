// What gates of all kinds show, of what inputs begin with and of what they are fed.
use super::base::Answer::{Done, Rest, Settled, Shows};
use super::base::Call::{Feed, Hold, Run, Take, Value};
use super::base::Level::{Start, Word};
use super::base::{HIGH, LOW, Scale, Story, Wiring, begun, check, check_log, closed, untouched};
use engine::session::Session;
use netlist::kind::Kind;
use netlist::kind::Kind::{And, Buf, Nand, Nor, Not, Or, Xnor, Xor};
use std::alloc::Global;
use std::process::Abort;
use std::test::Fail;
use values::bit::Bit;
use values::lanes::Lanes;
use values::ternary::Ternary;

#[test]
fn xor_of_three_inputs_is_their_parity(rt: HostRuntime) -> Result<(), Fail> {
    // The inputs count from 0 to 7.
    check(
        &rt,
        rt.alloc(),
        Story {
            wiring: Wiring {
                inputs: 3,
                gates: &[(Xor, 1, &[1, 2, 3])],
            },
            starts: &[LOW, LOW, LOW],
            log: &[
                (Feed(1, 1, HIGH), Done),
                (Feed(1, 2, LOW), Done),
                (Feed(1, 3, HIGH), Done),
                (Feed(1, 4, LOW), Done),
                (Feed(1, 5, HIGH), Done),
                (Feed(1, 6, LOW), Done),
                (Feed(1, 7, HIGH), Done),
                (Feed(2, 2, HIGH), Done),
                (Feed(2, 4, LOW), Done),
                (Feed(2, 6, HIGH), Done),
                (Hold(2, 8), Done),
                (Feed(3, 4, HIGH), Done),
                (Hold(3, 8), Done),
                (Run(1), Rest(1)),
                (Value(4, 1), Shows(LOW)),
                (Value(4, 2), Shows(HIGH)),
                (Value(4, 3), Shows(HIGH)),
                (Value(4, 4), Shows(LOW)),
                (Value(4, 5), Shows(HIGH)),
                (Value(4, 6), Shows(LOW)),
                (Value(4, 7), Shows(LOW)),
                (Value(4, 8), Shows(HIGH)),
            ],
            lines: &[
                (
                    8,
                    7,
                    &[
                        (0, LOW),
                        (1, HIGH),
                        (2, LOW),
                        (3, HIGH),
                        (4, LOW),
                        (5, HIGH),
                        (6, LOW),
                        (7, HIGH),
                    ],
                ),
                (
                    8,
                    3,
                    &[
                        (0, LOW),
                        (2, HIGH),
                        (4, LOW),
                        (6, HIGH),
                        (0, Start),
                        (0, Start),
                        (0, Start),
                        (0, Start),
                    ],
                ),
                (
                    8,
                    1,
                    &[
                        (0, LOW),
                        (4, HIGH),
                        (0, Start),
                        (0, Start),
                        (0, Start),
                        (0, Start),
                        (0, Start),
                        (0, Start),
                    ],
                ),
                (
                    9,
                    5,
                    &[
                        (0, LOW),
                        (2, HIGH),
                        (4, LOW),
                        (5, HIGH),
                        (6, LOW),
                        (8, HIGH),
                        (0, Start),
                        (0, Start),
                    ],
                ),
            ],
            spare: &[],
        },
    )
}

// A gate of delay 1 over four inputs, which are words in whose lanes they count from 0 to 15. They begin with these words,
// and are fed their inverses.
fn check_kind<V: Scale>(
    rt: &impl Abort,
    heap: Global,
    kind: Kind,
    reads: &[u32],
    words: [u64; 2],
) -> Result<(), Fail> {
    let [shown, inverses] = words;
    let wiring = Wiring {
        inputs: 4,
        gates: &[(kind, 1, reads)],
    };
    let starts = begun::<V>(
        heap,
        &[Word(0xaaaa), Word(0xcccc), Word(0xf0f0), Word(0xff00)],
    )?;
    let mut store = untouched::<V>(heap, 15)?;
    let mut session = Session::make(closed(wiring)?, &mut store, &starts);
    check_log(
        rt,
        &mut session,
        &[
            (Value(5, 0), Shows(Word(shown))),
            (Feed(1, 2, Word(!0xaaaa)), Done),
            (Feed(2, 2, Word(!0xcccc)), Done),
            (Feed(3, 2, Word(!0xf0f0)), Done),
            (Feed(4, 2, Word(!0xff00)), Done),
            (Take(5), Settled(4)),
            (Value(5, 2), Shows(Word(shown))),
            (Value(5, 3), Shows(Word(inverses))),
        ],
    );
    Ok(())
}

#[test]
fn gates_of_all_kinds_show_their_function(rt: HostRuntime) -> Result<(), Fail> {
    // A kind and the lines that it reads; what it shows of the words, and what of their inverses.
    let table: [(Kind, &[u32], [u64; 2]); 24] = [
        (Buf, &[4], [0xff00, !0xff00]),
        (Not, &[3], [!0xf0f0, 0xf0f0]),
        (And, &[1, 2], [0x8888, !0xeeee]),
        (Or, &[1, 2], [0xeeee, !0x8888]),
        (Xor, &[1, 2], [0x6666, 0x6666]),
        (Nand, &[2, 1], [!0x8888, 0xeeee]),
        (Nor, &[2, 1], [!0xeeee, 0x8888]),
        (Xnor, &[2, 1], [!0x6666, !0x6666]),
        (And, &[1, 2, 3], [0x8080, !0xfefe]),
        (Or, &[2, 3, 1], [0xfefe, !0x8080]),
        (Xor, &[3, 1, 2], [0x9696, !0x9696]),
        (Nand, &[2, 3, 4], [!0xc000, 0xfffc]),
        (Nor, &[4, 3, 2], [!0xfffc, 0xc000]),
        (Xnor, &[3, 2, 4], [!0xc33c, 0xc33c]),
        (And, &[1, 2, 3, 4], [0x8000, !0xfffe]),
        (Or, &[4, 3, 2, 1], [0xfffe, !0x8000]),
        (Xor, &[2, 1, 4, 3], [0x6996, 0x6996]),
        (Nand, &[3, 4, 1, 2], [!0x8000, 0xfffe]),
        (Nor, &[1, 3, 2, 4], [!0xfffe, 0x8000]),
        (Xnor, &[4, 1, 2, 3], [!0x6996, !0x6996]),
        (Xor, &[1, 1], [0, 0]),
        (Xnor, &[3, 3, 3], [!0xf0f0, 0xf0f0]),
        (And, &[2, 2, 2, 2], [0xcccc, !0xcccc]),
        (Nor, &[4, 4, 4, 1], [!0xffaa, 0xaa00]),
    ];
    for (kind, reads, words) in table {
        check_kind::<Bit>(&rt, rt.alloc(), kind, reads, words)?;
        check_kind::<Ternary>(&rt, rt.alloc(), kind, reads, words)?;
        check_kind::<Lanes>(&rt, rt.alloc(), kind, reads, words)?;
    }
    Ok(())
}
