// Lines that lead back to themselves.
use super::base::Answer::{Done, More, Rest, Resting, Settled, Shows, Stands};
use super::base::Call::{AtRest, Feed, Hold, Run, State, Take, Value};
use super::base::Level::Start;
use super::base::{
    HIGH, LOW, Scale, Story, Told, Wiring, begun, check_changes, check_in, check_log, closed,
    untouched,
};
use engine::session::Session;
use netlist::kind::Kind;
use netlist::kind::Kind::{And, Nand, Nor, Or, Xnor, Xor};
use std::alloc::Global;
use std::process::Abort;
use std::test::Fail;
use values::bit::Bit;
use values::lanes::Lanes;
use values::ternary::Ternary;

// Two gates that read each other: line 1 brings line 3 to 1, and line 2 brings it to 0.
const LATCH: Wiring = Wiring {
    inputs: 2,
    gates: &[(Nor, 1, &[2, 4]), (Nor, 1, &[1, 3])],
};

#[test]
fn a_latch_leaves_what_is_not_known(rt: HostRuntime) -> Result<(), Fail> {
    let story = Story {
        wiring: LATCH,
        starts: &[LOW, LOW],
        log: &[
            (Value(3, 0), Shows(Start)),
            (Value(4, 0), Shows(Start)),
            (Feed(1, 0, HIGH), Done),
            (Hold(1, 10), Done),
            (Hold(2, 10), Done),
            (Run(10), More(10)),
            (AtRest, Resting(false)),
            (Run(10), Rest(1)),
            (AtRest, Resting(true)),
        ],
        lines: &[
            (10, 1, &[(0, LOW), (0, HIGH)]),
            (10, 0, &[(0, LOW), (0, Start)]),
            (11, 1, &[(0, Start), (2, HIGH)]),
            (11, 1, &[(0, Start), (1, LOW)]),
        ],
        spare: &[],
    };
    check_in::<Ternary>(&rt, rt.alloc(), story)?;
    // In bits line 3 begins with 0, and so is 1 from tick 1 on, and line 4 stays as it began.
    let lines: &[(u32, usize, &[Told])] = &[
        (10, 1, &[(0, LOW), (0, HIGH)]),
        (10, 0, &[(0, LOW), (0, Start)]),
        (11, 1, &[(0, Start), (1, HIGH)]),
        (11, 0, &[(0, Start), (0, Start)]),
    ];
    check_in::<Bit>(&rt, rt.alloc(), Story { lines, ..story })?;
    check_in::<Lanes>(&rt, rt.alloc(), Story { lines, ..story })
}

#[test]
fn a_latch_keeps_what_it_was_brought_to(rt: HostRuntime) -> Result<(), Fail> {
    let story = Story {
        wiring: LATCH,
        starts: &[LOW, LOW],
        log: &[
            (Feed(1, 0, HIGH), Done),
            (Feed(1, 5, LOW), Done),
            (Hold(1, 20), Done),
            (Feed(2, 10, HIGH), Done),
            (Feed(2, 15, LOW), Done),
            (Hold(2, 20), Done),
            (Run(99), Rest(21)),
            (Value(3, 10), Shows(HIGH)),
            (Value(4, 11), Shows(LOW)),
            (Value(3, 20), Shows(LOW)),
            (Value(4, 20), Shows(HIGH)),
        ],
        lines: &[
            (20, 2, &[(0, LOW), (0, HIGH), (5, LOW)]),
            (20, 2, &[(0, LOW), (10, HIGH), (15, LOW)]),
            (21, 2, &[(0, Start), (2, HIGH), (11, LOW)]),
            (21, 2, &[(0, Start), (1, LOW), (12, HIGH)]),
        ],
        spare: &[],
    };
    check_in::<Ternary>(&rt, rt.alloc(), story)?;
    let lines: &[(u32, usize, &[Told])] = &[
        (20, 2, &[(0, LOW), (0, HIGH), (5, LOW)]),
        (20, 2, &[(0, LOW), (10, HIGH), (15, LOW)]),
        (21, 2, &[(0, Start), (1, HIGH), (11, LOW)]),
        (21, 1, &[(0, Start), (12, HIGH), (0, Start)]),
    ];
    check_in::<Bit>(&rt, rt.alloc(), Story { lines, ..story })?;
    check_in::<Lanes>(&rt, rt.alloc(), Story { lines, ..story })
}

#[test]
fn a_latch_that_is_brought_to_nothing_swings_in_bits(rt: HostRuntime) -> Result<(), Fail> {
    check_in::<Bit>(
        &rt,
        rt.alloc(),
        Story {
            wiring: LATCH,
            starts: &[LOW, LOW],
            log: &[(Hold(1, 5), Done), (Hold(2, 5), Done), (Run(99), Rest(6))],
            lines: &[
                (
                    5,
                    0,
                    &[
                        (0, LOW),
                        (0, Start),
                        (0, Start),
                        (0, Start),
                        (0, Start),
                        (0, Start),
                    ],
                ),
                (
                    5,
                    0,
                    &[
                        (0, LOW),
                        (0, Start),
                        (0, Start),
                        (0, Start),
                        (0, Start),
                        (0, Start),
                    ],
                ),
                (
                    6,
                    5,
                    &[
                        (0, Start),
                        (1, HIGH),
                        (2, LOW),
                        (3, HIGH),
                        (4, LOW),
                        (5, HIGH),
                    ],
                ),
                (
                    6,
                    5,
                    &[
                        (0, Start),
                        (1, HIGH),
                        (2, LOW),
                        (3, HIGH),
                        (4, LOW),
                        (5, HIGH),
                    ],
                ),
            ],
            spare: &[],
        },
    )
}

#[test]
fn a_latch_that_swings_stops_where_both_gates_are_full(rt: HostRuntime) -> Result<(), Fail> {
    check_in::<Bit>(
        &rt,
        rt.alloc(),
        Story {
            wiring: LATCH,
            starts: &[LOW, LOW],
            log: &[(Hold(1, 5), Done), (Hold(2, 5), Done), (Run(99), Rest(4))],
            lines: &[
                (5, 0, &[(0, LOW), (0, Start), (0, Start), (0, Start)]),
                (5, 0, &[(0, LOW), (0, Start), (0, Start), (0, Start)]),
                (4, 3, &[(0, Start), (1, HIGH), (2, LOW), (3, HIGH)]),
                (4, 3, &[(0, Start), (1, HIGH), (2, LOW), (3, HIGH)]),
            ],
            spare: &[],
        },
    )
}

#[test]
fn a_latch_that_is_brought_to_nothing_is_not_known(rt: HostRuntime) -> Result<(), Fail> {
    check_in::<Ternary>(
        &rt,
        rt.alloc(),
        Story {
            wiring: LATCH,
            starts: &[LOW, LOW],
            log: &[(Hold(1, 5), Done), (Hold(2, 5), Done), (Run(99), Rest(6))],
            lines: &[
                (5, 0, &[(0, LOW), (0, Start)]),
                (5, 0, &[(0, LOW), (0, Start)]),
                (6, 0, &[(0, Start), (0, Start)]),
                (6, 0, &[(0, Start), (0, Start)]),
            ],
            spare: &[],
        },
    )
}

// A gate of delay 1 that reads itself and an input, which is 1 at ticks 0 to 2, and 0 at ticks 3 to 5.
fn check_own<V: Scale>(
    rt: &impl Abort,
    heap: Global,
    kind: Kind,
    reads: &[u32],
    changes: &[Told],
) -> Result<(), Fail> {
    let wiring = Wiring {
        inputs: 1,
        gates: &[(kind, 1, reads)],
    };
    let starts = begun::<V>(heap, &[LOW])?;
    let mut store = untouched::<V>(heap, 16)?;
    let mut session = Session::make(closed(wiring)?, &mut store, &starts);
    check_log(
        rt,
        &mut session,
        &[
            (Value(2, 0), Shows(Start)),
            (Feed(1, 0, HIGH), Done),
            (Feed(1, 3, LOW), Done),
            (Hold(1, 6), Done),
            // Its front goes one tick further with each take.
            (Take(2), Settled(2)),
            (Take(2), Settled(3)),
            (Run(99), Rest(4)),
            (State(2), Stands(7, changes.len())),
        ],
    );
    check_changes(rt, &mut session, 2, changes);
    Ok(())
}

#[test]
fn gates_that_read_themselves_begin_with_start(rt: HostRuntime) -> Result<(), Fail> {
    // A kind and the lines that it reads; the changes in bits, and those in three values.
    let table: [(Kind, &[u32], &[Told], &[Told]); 12] = [
        (Xor, &[1, 2], &[(1, HIGH), (2, LOW), (3, HIGH)], &[]),
        (Xor, &[2, 1], &[(1, HIGH), (2, LOW), (3, HIGH)], &[]),
        (Xnor, &[1, 2], &[(4, HIGH), (5, LOW), (6, HIGH)], &[]),
        (Xnor, &[2, 1], &[(4, HIGH), (5, LOW), (6, HIGH)], &[]),
        (And, &[1, 2], &[], &[(4, LOW)]),
        (And, &[2, 1], &[], &[(4, LOW)]),
        (Or, &[1, 2], &[(1, HIGH)], &[(1, HIGH)]),
        (Or, &[2, 1], &[(1, HIGH)], &[(1, HIGH)]),
        (
            Nand,
            &[1, 2],
            &[(1, HIGH), (2, LOW), (3, HIGH)],
            &[(4, HIGH)],
        ),
        (
            Nand,
            &[2, 1],
            &[(1, HIGH), (2, LOW), (3, HIGH)],
            &[(4, HIGH)],
        ),
        (
            Nor,
            &[1, 2],
            &[(4, HIGH), (5, LOW), (6, HIGH)],
            &[(1, LOW), (4, HIGH), (5, LOW), (6, HIGH)],
        ),
        (
            Nor,
            &[2, 1],
            &[(4, HIGH), (5, LOW), (6, HIGH)],
            &[(1, LOW), (4, HIGH), (5, LOW), (6, HIGH)],
        ),
    ];
    for (kind, reads, bits, three) in table {
        check_own::<Bit>(&rt, rt.alloc(), kind, reads, bits)?;
        check_own::<Lanes>(&rt, rt.alloc(), kind, reads, bits)?;
        check_own::<Ternary>(&rt, rt.alloc(), kind, reads, three)?;
    }
    Ok(())
}

#[test]
fn a_gate_that_reads_itself_goes_a_delay_further_with_each_take(
    rt: HostRuntime,
) -> Result<(), Fail> {
    check_in::<Bit>(
        &rt,
        rt.alloc(),
        Story {
            wiring: Wiring {
                inputs: 1,
                gates: &[(Xor, 3, &[1, 2])],
            },
            starts: &[HIGH],
            log: &[
                (Value(2, 2), Shows(LOW)),
                (Hold(1, 8), Done),
                (Take(2), Settled(6)),
                (Take(2), Settled(9)),
                (Run(1), Rest(1)),
            ],
            lines: &[
                (8, 0, &[(0, HIGH), (0, Start), (0, Start), (0, Start)]),
                (11, 3, &[(0, Start), (3, HIGH), (6, LOW), (9, HIGH)]),
            ],
            spare: &[],
        },
    )
}
