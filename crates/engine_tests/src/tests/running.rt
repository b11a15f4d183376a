// Runs and takes: which gates they take, and that every rest is the same.
use super::base::Answer::{Done, More, Refused, Rest, Resting, Settled, Shows, Stands, Took};
use super::base::Call::{AtRest, Feed, Hold, Run, State, Take, ToRest, Value};
use super::base::Level::Start;
use super::base::{
    Answer, Call, HIGH, LOW, Level, OTHERS, PULSE, SOME, Scale, Story, Told, Wiring, begun, check,
    check_in, check_log, closed, untouched,
};
use engine::session::Session;
use netlist::kind::Kind::{And, Buf, Not};
use std::alloc::Global;
use std::process::Abort;
use std::test::Fail;
use values::bit::Bit;
use values::lanes::Lanes;
use values::ternary::Ternary;

// What the lines of a pulse come to.
const RESTED: &[(u32, usize, &[Told])] = &[
    (20, 1, &[(0, LOW), (10, SOME), (0, Start)]),
    (22, 1, &[(0, HIGH), (12, OTHERS), (0, Start)]),
    (21, 2, &[(0, LOW), (11, SOME), (13, LOW)]),
];

#[test]
fn a_pulse_runs_to_rest(rt: HostRuntime) -> Result<(), Fail> {
    check(
        &rt,
        rt.alloc(),
        Story {
            wiring: PULSE,
            starts: &[LOW],
            log: &[
                (State(1), Stands(0, 0)),
                (State(2), Stands(2, 0)),
                (State(3), Stands(1, 0)),
                (Value(2, 1), Shows(HIGH)),
                (Value(3, 0), Shows(LOW)),
                (AtRest, Resting(true)),
                (Run(5), Rest(0)),
                (Feed(1, 10, SOME), Done),
                (Hold(1, 20), Done),
                (AtRest, Resting(false)),
                (Run(5), Rest(2)),
                (AtRest, Resting(true)),
                (Value(1, 0), Shows(LOW)),
                (Value(1, 9), Shows(LOW)),
                (Value(1, 10), Shows(SOME)),
                (Value(1, 19), Shows(SOME)),
                (Value(2, 0), Shows(HIGH)),
                (Value(2, 11), Shows(HIGH)),
                (Value(2, 12), Shows(OTHERS)),
                (Value(2, 21), Shows(OTHERS)),
                (Value(3, 0), Shows(LOW)),
                (Value(3, 10), Shows(LOW)),
                (Value(3, 11), Shows(SOME)),
                (Value(3, 12), Shows(SOME)),
                (Value(3, 13), Shows(LOW)),
                (Value(3, 20), Shows(LOW)),
            ],
            lines: RESTED,
            spare: &[],
        },
    )
}

// The pulse, given by one log or another.
fn check_pulse(rt: &impl Abort, heap: Global, log: &[(Call, Answer<Level>)]) -> Result<(), Fail> {
    check(
        rt,
        heap,
        Story {
            wiring: PULSE,
            starts: &[LOW],
            log,
            lines: RESTED,
            spare: &[],
        },
    )
}

#[test]
fn runs_cut_in_any_way_come_to_one_rest(rt: HostRuntime) -> Result<(), Fail> {
    let logs: [&[_]; 6] = [
        // Line 3 first, as far as line 2 is settled.
        &[
            (Feed(1, 10, SOME), Done),
            (Hold(1, 20), Done),
            (Take(3), Settled(3)),
            (Run(5), Rest(2)),
        ],
        // One take at a time.
        &[
            (Feed(1, 10, SOME), Done),
            (Hold(1, 20), Done),
            (Run(1), More(1)),
            (Run(1), Rest(1)),
            (Run(1), Rest(0)),
        ],
        // Takes in the order of the lines, and runs of none.
        &[
            (Feed(1, 10, SOME), Done),
            (Hold(1, 20), Done),
            (Run(0), More(0)),
            (Take(2), Settled(22)),
            (Run(0), More(0)),
            (Take(3), Settled(21)),
            (Run(0), Rest(0)),
        ],
        // The front of line 2 is ahead of that of line 3.
        &[
            (Hold(1, 5), Done),
            (Take(2), Settled(7)),
            (Feed(1, 10, SOME), Done),
            (Hold(1, 20), Done),
            (Run(1), More(1)),
            (State(3), Stands(8, 0)),
            (Run(1), More(1)),
            (State(2), Stands(22, 1)),
            (Run(u32::MAX), Rest(1)),
        ],
        // A run before the input is held.
        &[
            (Feed(1, 10, SOME), Done),
            (Run(9), Rest(2)),
            (State(2), Stands(13, 1)),
            (State(3), Stands(12, 1)),
            (Hold(1, 20), Done),
            (Run(9), Rest(2)),
        ],
        // Values that are no change, and an end that stays.
        &[
            (Hold(1, 0), Done),
            (Feed(1, 0, LOW), Done),
            (Hold(1, 3), Done),
            (Run(9), Rest(2)),
            (Hold(1, 3), Done),
            (Run(9), Rest(0)),
            (Hold(1, 10), Done),
            (Feed(1, 10, SOME), Done),
            (Take(3), Settled(6)),
            (Run(9), Rest(2)),
            (Feed(1, 15, SOME), Done),
            (Feed(1, 19, SOME), Done),
            (Run(2), Rest(2)),
        ],
    ];
    for log in logs {
        check_pulse(&rt, rt.alloc(), log)?;
    }
    Ok(())
}

// Runs one session to rest, and another that was given the same by a run of u32::MAX.
fn check_to_rest<V: Scale>(
    rt: &impl Abort,
    heap: Global,
    wiring: Wiring,
    records: usize,
    given: &[(Call, Answer<Level>)],
    takes: u32,
) -> Result<(), Fail> {
    let starts = begun::<V>(heap, &[LOW])?;
    let mut store = untouched::<V>(heap, records)?;
    let mut session = Session::make(closed(wiring)?, &mut store, &starts);
    check_log(rt, &mut session, given);
    let to_rest = [
        (ToRest, Took(takes as u64)),
        (AtRest, Resting(true)),
        (ToRest, Took(0)),
    ];
    check_log(rt, &mut session, &to_rest);
    let mut other_store = untouched::<V>(heap, records)?;
    let mut other = Session::make(closed(wiring)?, &mut other_store, &starts);
    check_log(rt, &mut other, given);
    check_log(rt, &mut other, &[(Run(u32::MAX), Rest(takes))]);
    assert!(rt; session.same_store(&other), "{given:?}");
    Ok(())
}

#[test]
fn running_to_rest_is_a_run_long_enough(rt: HostRuntime) -> Result<(), Fail> {
    // Line 2 reads itself, so each take moves it by one tick.
    let looped = Wiring {
        inputs: 1,
        gates: &[(And, 1, &[1, 2])],
    };
    let table: [(Wiring, usize, &[_], u32); 6] = [
        // Nothing is given.
        (PULSE, 9, &[], 0),
        (
            PULSE,
            9,
            &[(Feed(1, 10, SOME), Done), (Hold(1, 20), Done)],
            2,
        ),
        // Line 3 is full.
        (
            PULSE,
            6,
            &[(Feed(1, 10, SOME), Done), (Hold(1, 20), Done)],
            2,
        ),
        // The front of line 2 is ahead of that of line 3.
        (
            PULSE,
            9,
            &[
                (Hold(1, 5), Done),
                (Take(2), Settled(7)),
                (Feed(1, 10, SOME), Done),
                (Hold(1, 20), Done),
            ],
            3,
        ),
        (looped, 4, &[(Hold(1, 100), Done)], 100),
        // Too few records for lines.
        (PULSE, 5, &[(Hold(1, 20), Refused(12))], 0),
    ];
    for (wiring, records, given, takes) in table {
        check_to_rest::<Bit>(&rt, rt.alloc(), wiring, records, given, takes)?;
        check_to_rest::<Ternary>(&rt, rt.alloc(), wiring, records, given, takes)?;
        check_to_rest::<Lanes>(&rt, rt.alloc(), wiring, records, given, takes)?;
    }
    Ok(())
}

#[test]
fn the_smallest_front_comes_first_and_then_the_smallest_line(rt: HostRuntime) -> Result<(), Fail> {
    check(
        &rt,
        rt.alloc(),
        Story {
            wiring: Wiring {
                inputs: 1,
                gates: &[(Not, 1, &[1]), (Buf, 3, &[1])],
            },
            starts: &[LOW],
            log: &[
                (Hold(1, 5), Done),
                (Run(1), More(1)),
                (State(2), Stands(6, 0)),
                (State(3), Stands(3, 0)),
                (Hold(1, 9), Done),
                (Run(1), More(1)),
                (State(2), Stands(6, 0)),
                (State(3), Stands(12, 0)),
                (Run(1), Rest(1)),
            ],
            lines: &[
                (9, 0, &[(0, LOW), (0, Start)]),
                (10, 0, &[(0, HIGH), (0, Start)]),
                (12, 0, &[(0, LOW), (0, Start)]),
            ],
            spare: &[],
        },
    )
}

#[test]
fn a_gate_follows_up_to_the_least_settled_of_its_lines(rt: HostRuntime) -> Result<(), Fail> {
    // The ends of three inputs, what taking their gate answers, and how far its line is settled.
    let table = [
        ([4, 7, 9], Settled(14), 14),
        ([7, 4, 9], Settled(14), 14),
        ([9, 7, 4], Settled(14), 14),
        ([4, 4, 4], Settled(14), 14),
        ([0, 7, 9], Refused(17), 10),
        ([7, 0, 9], Refused(17), 10),
        ([9, 7, 0], Refused(17), 10),
    ];
    for ([first, second, third], taken, settled) in table {
        check(
            &rt,
            rt.alloc(),
            Story {
                wiring: Wiring {
                    inputs: 3,
                    gates: &[(And, 10, &[1, 2, 3])],
                },
                starts: &[HIGH, HIGH, HIGH],
                log: &[
                    (Hold(1, first), Done),
                    (Hold(2, second), Done),
                    (Hold(3, third), Done),
                    (Take(4), taken),
                    (Take(4), Refused(17)),
                ],
                lines: &[
                    (first, 0, &[(0, HIGH), (0, Start)]),
                    (second, 0, &[(0, HIGH), (0, Start)]),
                    (third, 0, &[(0, HIGH), (0, Start)]),
                    (settled, 0, &[(0, HIGH), (0, Start)]),
                ],
                spare: &[],
            },
        )?;
    }
    Ok(())
}

#[test]
fn a_pulse_of_one_tick_passes_long_delays(rt: HostRuntime) -> Result<(), Fail> {
    check(
        &rt,
        rt.alloc(),
        Story {
            wiring: Wiring {
                inputs: 1,
                gates: &[(Buf, 9, &[1]), (Not, 65_535, &[2])],
            },
            starts: &[LOW],
            log: &[
                (Feed(1, 3, SOME), Done),
                (Feed(1, 4, LOW), Done),
                (Feed(1, 5, SOME), Done),
                (Run(9), Rest(2)),
                (Value(2, 11), Shows(LOW)),
                (Value(2, 12), Shows(SOME)),
                (Value(2, 13), Shows(LOW)),
                (Value(2, 14), Shows(SOME)),
            ],
            lines: &[
                (6, 3, &[(0, LOW), (3, SOME), (4, LOW), (5, SOME)]),
                (15, 3, &[(0, LOW), (12, SOME), (13, LOW), (14, SOME)]),
                (
                    65_550,
                    3,
                    &[
                        (0, HIGH),
                        (65_547, OTHERS),
                        (65_548, HIGH),
                        (65_549, OTHERS),
                    ],
                ),
            ],
            spare: &[],
        },
    )
}

#[test]
fn nothing_is_known_before_tick_0(rt: HostRuntime) -> Result<(), Fail> {
    check_in::<Ternary>(
        &rt,
        rt.alloc(),
        Story {
            wiring: PULSE,
            starts: &[Start],
            log: &[
                (Value(2, 1), Shows(Start)),
                (Value(3, 0), Shows(Start)),
                (Feed(1, 0, LOW), Done),
                (Feed(1, 10, HIGH), Done),
                (Hold(1, 20), Done),
                (Run(9), Rest(2)),
            ],
            lines: &[
                (20, 2, &[(0, Start), (0, LOW), (10, HIGH), (0, Start)]),
                (22, 2, &[(0, Start), (2, HIGH), (12, LOW), (0, Start)]),
                (21, 3, &[(0, Start), (1, LOW), (11, HIGH), (13, LOW)]),
            ],
            spare: &[],
        },
    )
}

#[test]
fn what_is_not_known_passes_as_a_value(rt: HostRuntime) -> Result<(), Fail> {
    check_in::<Ternary>(
        &rt,
        rt.alloc(),
        Story {
            wiring: PULSE,
            starts: &[LOW],
            log: &[
                (Feed(1, 3, Start), Done),
                (Feed(1, 6, HIGH), Done),
                (Hold(1, 10), Done),
                (Run(9), Rest(2)),
            ],
            lines: &[
                (10, 2, &[(0, LOW), (3, Start), (6, HIGH)]),
                (12, 2, &[(0, HIGH), (5, Start), (8, LOW)]),
                (11, 2, &[(0, LOW), (4, Start), (9, LOW)]),
            ],
            spare: &[],
        },
    )
}
