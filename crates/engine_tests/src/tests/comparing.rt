// Comparing sessions by their stores and by relations, and what sessions tell of themselves.
use super::base::Answer::{Done, More, Refused, Rest, Settled, Shows, Stands};
use super::base::Call::{Feed, Hold, Run, State, Take, Trim, Value};
use super::base::Level::{Start, Word};
use super::base::{
    Answer, Call, HIGH, LOW, Level, PULSE, SOME, Scale, Wiring, begun, check_log, closed, untouched,
};
use engine::session::Session;
use netlist::kind::Kind::And;
use std::alloc::Global;
use std::process::Abort;
use std::test::Fail;
use values::bit::Bit;
use values::lane::Lane;
use values::lanes::Lanes;
use values::relation::Relation;
use values::stands_for::StandsFor;
use values::ternary::Ternary;

// One of two sessions: its netlist, how many records it is lent, what its inputs begin with, and each call with its answer.
#[derive(Clone, Copy)]
struct Side<'a> {
    wiring: Wiring<'a>,
    records: usize,
    starts: &'a [Level],
    log: &'a [(Call, Answer<Level>)],
}

// A pulse with room for two changes of each line, whose input begins with 0.
fn pulse<'a>(log: &'a [(Call, Answer<Level>)]) -> Side<'a> {
    Side {
        wiring: PULSE,
        records: 9,
        starts: &[LOW],
        log,
    }
}

// A session that has too few records to have lines.
const WITHOUT_LINES: Side = Side {
    wiring: PULSE,
    records: 5,
    starts: &[LOW],
    log: &[],
};

// Tests in one system whether two sessions have the same store.
fn check_same_in<V: Scale>(
    rt: &impl Abort,
    heap: Global,
    left: Side,
    right: Side,
    same: bool,
) -> Result<(), Fail> {
    let mut left_store = untouched::<V>(heap, left.records)?;
    let mut right_store = untouched::<V>(heap, right.records)?;
    let left_starts = begun::<V>(heap, left.starts)?;
    let right_starts = begun::<V>(heap, right.starts)?;
    let mut first = Session::make(closed(left.wiring)?, &mut left_store, &left_starts);
    let mut second = Session::make(closed(right.wiring)?, &mut right_store, &right_starts);
    check_log(rt, &mut first, left.log);
    check_log(rt, &mut second, right.log);
    assert_eq!(rt;
        first.same_store(&second),
        same,
        "{:?} {:?}",
        left.log,
        right.log
    );
    assert_eq!(rt;
        second.same_store(&first),
        same,
        "{:?} {:?}",
        right.log,
        left.log
    );
    assert!(rt; first.same_store(&first));
    Ok(())
}

// The same in each system.
fn check_same(
    rt: &impl Abort,
    heap: Global,
    left: Side,
    right: Side,
    same: bool,
) -> Result<(), Fail> {
    check_same_in::<Bit>(rt, heap, left, right, same)?;
    check_same_in::<Ternary>(rt, heap, left, right, same)?;
    check_same_in::<Lanes>(rt, heap, left, right, same)
}

// A pulse that is given at once, and runs to rest.
const AT_ONCE: &[(Call, Answer<Level>)] = &[
    (Feed(1, 10, SOME), Done),
    (Hold(1, 20), Done),
    (Run(9), Rest(2)),
];

#[test]
fn sessions_given_alike_have_the_same_store_at_rest(rt: HostRuntime) -> Result<(), Fail> {
    let table: [(&[_], bool); 9] = [
        (AT_ONCE, true),
        // Cut after the feed.
        (
            &[
                (Feed(1, 10, SOME), Done),
                (Run(9), Rest(2)),
                (Hold(1, 20), Done),
                (Run(9), Rest(2)),
            ],
            true,
        ),
        // Values that are no change, and line 3 taken before line 2.
        (
            &[
                (Feed(1, 0, LOW), Done),
                (Hold(1, 3), Done),
                (Run(9), Rest(2)),
                (Feed(1, 10, SOME), Done),
                (Feed(1, 15, SOME), Done),
                (Hold(1, 20), Done),
                (Take(3), Settled(6)),
                (Run(9), Rest(2)),
            ],
            true,
        ),
        // Given alike, but not at rest.
        (&[(Feed(1, 10, SOME), Done), (Hold(1, 20), Done)], false),
        (
            &[
                (Feed(1, 10, SOME), Done),
                (Hold(1, 20), Done),
                (Run(1), More(1)),
            ],
            false,
        ),
        // Given less: just the last record is another.
        (&[(Feed(1, 10, SOME), Done), (Run(9), Rest(2))], false),
        // Another value, and another tick.
        (
            &[
                (Feed(1, 10, LOW), Done),
                (Hold(1, 20), Done),
                (Run(9), Rest(2)),
            ],
            false,
        ),
        (
            &[
                (Feed(1, 11, SOME), Done),
                (Hold(1, 20), Done),
                (Run(9), Rest(2)),
            ],
            false,
        ),
        // Another trim tick, below which there is no change.
        (
            &[
                (Feed(1, 10, SOME), Done),
                (Hold(1, 20), Done),
                (Run(9), Rest(2)),
                (Trim(10), Done),
            ],
            false,
        ),
    ];
    for (log, same) in table {
        check_same(&rt, rt.alloc(), pulse(AT_ONCE), pulse(log), same)?;
    }
    Ok(())
}

#[test]
fn trimmed_sessions_have_the_same_store(rt: HostRuntime) -> Result<(), Fail> {
    check_same(
        &rt,
        rt.alloc(),
        pulse(&[
            (Feed(1, 10, SOME), Done),
            (Hold(1, 20), Done),
            (Run(9), Rest(2)),
            (Trim(12), Done),
        ]),
        pulse(&[
            (Feed(1, 10, SOME), Done),
            (Run(9), Rest(2)),
            (Trim(11), Done),
            (Hold(1, 20), Done),
            (Run(9), Rest(2)),
            (Trim(12), Done),
        ]),
        true,
    )
}

// Line 3 is AND of two inputs.
const BOTH: Wiring = Wiring {
    inputs: 2,
    gates: &[(And, 1, &[1, 2])],
};

// Two inputs held to tick 1.
const HELD_TO_1: &[(Call, Answer<Level>)] = &[
    (Hold(1, 1), Done),
    (Hold(2, 1), Done),
    (Run(9), Rest(1)),
];

#[test]
fn stores_are_the_records_of_the_lines(rt: HostRuntime) -> Result<(), Fail> {
    // How many records are lent, and what line 1 begins with, where line 3 is 0 in any case.
    let table = [
        (6, HIGH, true),
        (7, HIGH, true),
        (8, HIGH, true),
        (9, HIGH, false),
        (5, HIGH, false),
        (6, LOW, false),
        (6, Start, false),
    ];
    for (records, start, same) in table {
        check_same(
            &rt,
            rt.alloc(),
            Side {
                wiring: BOTH,
                records: 6,
                starts: &[HIGH, LOW],
                log: HELD_TO_1,
            },
            Side {
                wiring: BOTH,
                records,
                starts: &[start, LOW],
                log: if records < 6 { &[] } else { HELD_TO_1 },
            },
            same,
        )?;
    }
    Ok(())
}

#[test]
fn sessions_not_given_alike_may_have_the_same_store(rt: HostRuntime) -> Result<(), Fail> {
    // A change to START at tick 0 looks like a record without a change.
    check_same(
        &rt,
        rt.alloc(),
        Side {
            wiring: BOTH,
            records: 6,
            starts: &[HIGH, LOW],
            log: &[
                (Feed(1, 0, Start), Done),
                (Hold(2, 1), Done),
                (Run(9), Rest(1)),
                (State(1), Stands(1, 1)),
                (Value(1, 0), Shows(Start)),
            ],
        },
        Side {
            wiring: BOTH,
            records: 6,
            starts: &[HIGH, LOW],
            log: &[
                (Hold(1, 1), Done),
                (Hold(2, 1), Done),
                (Run(9), Rest(1)),
                (State(1), Stands(1, 0)),
                (Value(1, 0), Shows(HIGH)),
            ],
        },
        true,
    )
}

// Ticks of a line, from one up to another, and what is told there: whether values are tied, or the number of the refusal.
type Span = (u32, u32, u32, Result<bool, u8>);

// Tests where the values of two sessions are tied.
fn check_tied<V: Scale, W: Scale>(
    rt: &impl Abort,
    heap: Global,
    relation: &impl Relation<V, W>,
    left: Side,
    right: Side,
    spans: &[Span],
) -> Result<(), Fail> {
    let mut left_store = untouched::<V>(heap, left.records)?;
    let mut right_store = untouched::<W>(heap, right.records)?;
    let left_starts = begun::<V>(heap, left.starts)?;
    let right_starts = begun::<W>(heap, right.starts)?;
    let mut first = Session::make(closed(left.wiring)?, &mut left_store, &left_starts);
    let mut second = Session::make(closed(right.wiring)?, &mut right_store, &right_starts);
    check_log(rt, &mut first, left.log);
    check_log(rt, &mut second, right.log);
    for (line, from, to, told) in spans {
        for tick in *from..*to {
            let answer = match first.tied(relation, &second, *line, tick) {
                Ok(tied) => Ok(tied),
                Err(refusal) => Err(refusal.number()),
            };
            assert_eq!(rt; answer, *told, "line {line} at {tick}");
        }
    }
    Ok(())
}

#[test]
fn three_values_stand_for_two(rt: HostRuntime) -> Result<(), Fail> {
    let known = Side {
        wiring: PULSE,
        records: 12,
        starts: &[LOW],
        log: &[
            (Feed(1, 3, LOW), Done),
            (Feed(1, 6, HIGH), Done),
            (Hold(1, 10), Done),
            (Run(9), Rest(2)),
        ],
    };
    let not_known = Side {
        starts: &[Start],
        ..known
    };
    let begun_with_1 = Side {
        starts: &[HIGH],
        ..known
    };
    let kept_at_1 = Side {
        log: &[(Hold(1, 10), Done), (Run(9), Rest(2))],
        ..begun_with_1
    };
    let throughout: &[Span] = &[
        (1, 0, 10, Ok(true)),
        (2, 0, 12, Ok(true)),
        (3, 0, 11, Ok(true)),
    ];
    let table: [(Side, Side, &[Span]); 4] = [
        (not_known, known, throughout),
        (not_known, begun_with_1, throughout),
        (
            not_known,
            kept_at_1,
            &[
                (1, 0, 3, Ok(true)),
                (1, 3, 6, Ok(false)),
                (1, 6, 10, Ok(true)),
                (2, 0, 5, Ok(true)),
                (2, 5, 8, Ok(false)),
                (2, 8, 12, Ok(true)),
                (3, 0, 7, Ok(true)),
                (3, 7, 9, Ok(false)),
                (3, 9, 11, Ok(true)),
            ],
        ),
        (
            known,
            begun_with_1,
            &[
                (1, 0, 3, Ok(false)),
                (1, 3, 10, Ok(true)),
                (2, 0, 5, Ok(false)),
                (2, 5, 12, Ok(true)),
                (3, 0, 11, Ok(true)),
            ],
        ),
    ];
    for (left, right, spans) in table {
        check_tied::<Ternary, Bit>(&rt, rt.alloc(), &StandsFor, left, right, spans)?;
    }
    Ok(())
}

#[test]
fn a_lane_is_tied_and_another_is_not(rt: HostRuntime) -> Result<(), Fail> {
    let side = pulse(&[
        (Feed(1, 10, Word(1)), Done),
        (Hold(1, 20), Done),
        (Run(9), Rest(2)),
    ]);
    let table: [(u8, &[Span]); 3] = [
        (
            0,
            &[
                (1, 0, 20, Ok(true)),
                (2, 0, 22, Ok(true)),
                (3, 0, 21, Ok(true)),
            ],
        ),
        (
            1,
            &[
                (1, 0, 10, Ok(true)),
                (1, 10, 20, Ok(false)),
                (2, 0, 12, Ok(true)),
                (2, 12, 22, Ok(false)),
                (3, 0, 11, Ok(true)),
                (3, 11, 13, Ok(false)),
                (3, 13, 21, Ok(true)),
            ],
        ),
        (63, &[(1, 9, 10, Ok(true)), (1, 10, 20, Ok(false))]),
    ];
    for (place, spans) in table {
        let lane = Lane::new(place).ok_or("no such lane")?;
        check_tied::<Lanes, Bit>(&rt, rt.alloc(), &lane, side, side, spans)?;
    }
    Ok(())
}

#[test]
fn a_value_that_is_refused_is_not_compared(rt: HostRuntime) -> Result<(), Fail> {
    let ungiven = pulse(&[]);
    let held = pulse(&[(Hold(1, 10), Done), (Run(9), Rest(2))]);
    let trimmed = pulse(&[
        (Hold(1, 10), Done),
        (Run(9), Rest(2)),
        (Trim(5), Done),
        (Trim(4), Refused(13)),
    ]);
    let table: [(Side, Side, &[Span]); 9] = [
        (
            held,
            held,
            &[
                (0, 0, 11, Err(12)),
                (1, 0, 10, Ok(true)),
                (1, 10, 11, Err(15)),
                (2, 12, 13, Err(15)),
                (3, 11, 12, Err(15)),
                (4, 0, 11, Err(12)),
            ],
        ),
        (trimmed, held, &[(1, 0, 5, Err(13)), (1, 5, 10, Ok(true))]),
        (held, trimmed, &[(3, 0, 5, Err(13)), (3, 5, 11, Ok(true))]),
        (
            ungiven,
            held,
            &[(1, 0, 1, Err(15)), (2, 0, 2, Ok(true)), (2, 2, 12, Err(15))],
        ),
        (
            held,
            ungiven,
            &[(1, 0, 1, Err(15)), (2, 0, 2, Ok(true)), (2, 2, 12, Err(15))],
        ),
        // Where both refuse, the first is told.
        (trimmed, ungiven, &[(1, 0, 5, Err(13)), (1, 5, 10, Err(15))]),
        (ungiven, trimmed, &[(2, 0, 2, Err(13)), (2, 2, 5, Err(15))]),
        (WITHOUT_LINES, trimmed, &[(1, 0, 11, Err(12))]),
        (
            trimmed,
            WITHOUT_LINES,
            &[
                (1, 0, 5, Err(13)),
                (1, 5, 10, Err(12)),
                (1, 10, 11, Err(15)),
            ],
        ),
    ];
    for (left, right, spans) in table {
        check_tied::<Ternary, Bit>(&rt, rt.alloc(), &StandsFor, left, right, spans)?;
    }
    Ok(())
}

// What a session tells of itself.
#[derive(Clone, Copy, PartialEq, Debug)]
struct Traits {
    room: usize,
    trim: u32,
    lines: usize,
    ends: [Option<u32>; 2],
    rest: bool,
}

fn traits_of<V: Scale>(session: &Session<V>) -> Traits {
    let netlist = session.netlist();
    Traits {
        room: session.room(),
        trim: session.trim_tick(),
        lines: netlist.lines(),
        ends: [netlist.output(0), netlist.output(1)],
        rest: session.at_rest(),
    }
}

// Tests what a session tells of itself as it is made, and after its calls.
fn check_traits_in<V: Scale>(
    rt: &impl Abort,
    heap: Global,
    side: Side,
    before: Traits,
    after: Traits,
) -> Result<(), Fail> {
    let starts = begun::<V>(heap, side.starts)?;
    let mut store = untouched::<V>(heap, side.records)?;
    let mut session = Session::make(closed(side.wiring)?, &mut store, &starts);
    assert_eq!(rt; traits_of(&session), before, "{} records", side.records);
    check_log(rt, &mut session, side.log);
    assert_eq!(rt; traits_of(&session), after, "{} records", side.records);
    Ok(())
}

// The same in each system.
fn check_traits(
    rt: &impl Abort,
    heap: Global,
    side: Side,
    before: Traits,
    after: Traits,
) -> Result<(), Fail> {
    check_traits_in::<Bit>(rt, heap, side, before, after)?;
    check_traits_in::<Ternary>(rt, heap, side, before, after)?;
    check_traits_in::<Lanes>(rt, heap, side, before, after)
}

#[test]
fn sessions_tell_their_room_and_their_trim_tick(rt: HostRuntime) -> Result<(), Fail> {
    let table = [(6, 1), (7, 1), (8, 1), (9, 2), (11, 2), (12, 3), (600, 199)];
    for (records, room) in table {
        let before = Traits {
            room,
            trim: 0,
            lines: 3,
            ends: [Some(3), None],
            rest: true,
        };
        let after = Traits {
            trim: 7,
            rest: false,
            ..before
        };
        check_traits(
            &rt,
            rt.alloc(),
            Side {
                wiring: PULSE,
                records,
                starts: &[LOW],
                log: &[
                    (Hold(1, 8), Done),
                    (Run(9), Rest(2)),
                    (Trim(7), Done),
                    (Trim(6), Refused(13)),
                    (Trim(9), Refused(15)),
                    (Feed(1, 8, SOME), Done),
                ],
            },
            before,
            after,
        )?;
    }
    Ok(())
}

#[test]
fn a_session_without_lines_tells_that_it_has_none(rt: HostRuntime) -> Result<(), Fail> {
    let nothing = Side {
        wiring: Wiring {
            inputs: 0,
            gates: &[],
        },
        records: 0,
        starts: &[],
        log: &[],
    };
    let none = Traits {
        room: 0,
        trim: 0,
        lines: 0,
        ends: [None, None],
        rest: true,
    };
    for side in [nothing, WITHOUT_LINES] {
        check_traits(&rt, rt.alloc(), side, none, none)?;
        check_same(&rt, rt.alloc(), nothing, side, true)?;
        check_same(&rt, rt.alloc(), pulse(&[]), side, false)?;
    }
    Ok(())
}
