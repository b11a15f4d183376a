// Room for changes: lines that are full, trimming, and records that are spare.
use super::base::Answer::{Change, Done, Refused, Rest, Resting, Settled, Shows, Stands};
use super::base::Call::{AtRest, Event, Feed, Hold, Run, State, Take, Trim, Value};
use super::base::Level::Start;
use super::base::{HIGH, LOW, OTHERS, PULSE, SOME, Story, Told, UNTOUCHED, Wiring, check};
use netlist::kind::Kind::{And, Buf, Not};
use std::alloc::Global;
use std::process::Abort;
use std::test::Fail;

#[test]
fn a_line_stops_before_a_change_without_room(rt: HostRuntime) -> Result<(), Fail> {
    check(
        &rt,
        rt.alloc(),
        Story {
            wiring: PULSE,
            starts: &[LOW],
            log: &[
                (Feed(1, 10, SOME), Done),
                (Hold(1, 20), Done),
                (Take(2), Settled(22)),
                (Take(3), Settled(13)),
                (Take(3), Refused(16)),
                (AtRest, Resting(true)),
                (Run(5), Rest(0)),
                (Value(3, 12), Shows(SOME)),
                (Value(3, 13), Refused(15)),
            ],
            lines: &[
                (20, 1, &[(0, LOW), (10, SOME)]),
                (22, 1, &[(0, HIGH), (12, OTHERS)]),
                (13, 1, &[(0, LOW), (11, SOME)]),
            ],
            spare: &[],
        },
    )
}

#[test]
fn trimming_makes_room(rt: HostRuntime) -> Result<(), Fail> {
    check(
        &rt,
        rt.alloc(),
        Story {
            wiring: PULSE,
            starts: &[LOW],
            log: &[
                (Feed(1, 10, SOME), Done),
                (Hold(1, 20), Done),
                (Run(5), Rest(2)),
                (Trim(13), Refused(15)),
                (Take(3), Refused(16)),
                (Trim(12), Done),
                (State(1), Stands(20, 0)),
                (State(2), Stands(22, 1)),
                (State(3), Stands(13, 0)),
                (Event(2, 0), Change(12, OTHERS)),
                (Value(3, 12), Shows(SOME)),
                (Value(3, 11), Refused(13)),
                (AtRest, Resting(false)),
                (Run(5), Rest(1)),
            ],
            lines: &[
                (20, 0, &[(12, SOME), (0, Start)]),
                (22, 1, &[(12, HIGH), (12, OTHERS)]),
                (21, 1, &[(12, SOME), (13, LOW)]),
            ],
            spare: &[],
        },
    )
}

#[test]
fn lines_above_a_full_one_stop_after_it(rt: HostRuntime) -> Result<(), Fail> {
    check(
        &rt,
        rt.alloc(),
        Story {
            wiring: Wiring {
                inputs: 1,
                gates: &[(Not, 2, &[1]), (And, 1, &[1, 2]), (Buf, 4, &[3])],
            },
            starts: &[LOW],
            log: &[
                (Feed(1, 10, SOME), Done),
                (Hold(1, 20), Done),
                (Run(9), Rest(3)),
            ],
            lines: &[
                (20, 1, &[(0, LOW), (10, SOME)]),
                (22, 1, &[(0, HIGH), (12, OTHERS)]),
                (13, 1, &[(0, LOW), (11, SOME)]),
                (17, 1, &[(0, LOW), (15, SOME)]),
            ],
            spare: &[],
        },
    )
}

#[test]
fn an_input_is_full_where_another_change_has_no_room(rt: HostRuntime) -> Result<(), Fail> {
    check(
        &rt,
        rt.alloc(),
        Story {
            wiring: PULSE,
            starts: &[LOW],
            log: &[
                (Feed(1, 10, SOME), Done),
                (Hold(1, 20), Done),
                (Feed(1, 20, LOW), Refused(16)),
                (State(1), Stands(20, 1)),
                (Feed(1, 19, LOW), Refused(13)),
                (Feed(1, 20, SOME), Done),
                (Feed(1, 21, LOW), Refused(16)),
            ],
            lines: &[
                (21, 1, &[(0, LOW), (10, SOME)]),
                (2, 0, &[(0, HIGH), (0, Start)]),
                (1, 0, &[(0, LOW), (0, Start)]),
            ],
            spare: &[],
        },
    )
}

#[test]
fn an_input_takes_as_many_changes_as_there_is_room_for(rt: HostRuntime) -> Result<(), Fail> {
    check(
        &rt,
        rt.alloc(),
        Story {
            wiring: PULSE,
            starts: &[LOW],
            log: &[
                (Feed(1, 10, SOME), Done),
                (Hold(1, 20), Done),
                (Feed(1, 20, LOW), Done),
                (Feed(1, 21, SOME), Refused(16)),
                (Feed(1, 21, LOW), Done),
            ],
            lines: &[
                (22, 2, &[(0, LOW), (10, SOME), (20, LOW)]),
                (2, 0, &[(0, HIGH), (0, Start), (0, Start)]),
                (1, 0, &[(0, LOW), (0, Start), (0, Start)]),
            ],
            spare: &[],
        },
    )
}

// A pulse at rest is trimmed at a tick.
fn check_trim(
    rt: &impl Abort,
    heap: Global,
    tick: u32,
    lines: &[(u32, usize, &[Told])],
) -> Result<(), Fail> {
    check(
        rt,
        heap,
        Story {
            wiring: PULSE,
            starts: &[LOW],
            log: &[
                (Feed(1, 10, SOME), Done),
                (Hold(1, 20), Done),
                (Run(5), Rest(2)),
                (Trim(tick), Done),
                (Trim(tick), Done),
                (AtRest, Resting(true)),
            ],
            lines,
            spare: &[],
        },
    )
}

#[test]
fn trimming_keeps_what_comes_from_the_tick_on(rt: HostRuntime) -> Result<(), Fail> {
    let table: [(u32, &[(u32, usize, &[Told])]); 6] = [
        (
            0,
            &[
                (20, 1, &[(0, LOW), (10, SOME), (0, Start)]),
                (22, 1, &[(0, HIGH), (12, OTHERS), (0, Start)]),
                (21, 2, &[(0, LOW), (11, SOME), (13, LOW)]),
            ],
        ),
        (
            10,
            &[
                (20, 1, &[(10, LOW), (10, SOME), (0, Start)]),
                (22, 1, &[(10, HIGH), (12, OTHERS), (0, Start)]),
                (21, 2, &[(10, LOW), (11, SOME), (13, LOW)]),
            ],
        ),
        (
            11,
            &[
                (20, 0, &[(11, SOME), (0, Start), (0, Start)]),
                (22, 1, &[(11, HIGH), (12, OTHERS), (0, Start)]),
                (21, 2, &[(11, LOW), (11, SOME), (13, LOW)]),
            ],
        ),
        (
            12,
            &[
                (20, 0, &[(12, SOME), (0, Start), (0, Start)]),
                (22, 1, &[(12, HIGH), (12, OTHERS), (0, Start)]),
                (21, 1, &[(12, SOME), (13, LOW), (0, Start)]),
            ],
        ),
        (
            13,
            &[
                (20, 0, &[(13, SOME), (0, Start), (0, Start)]),
                (22, 0, &[(13, OTHERS), (0, Start), (0, Start)]),
                (21, 1, &[(13, SOME), (13, LOW), (0, Start)]),
            ],
        ),
        (
            20,
            &[
                (20, 0, &[(20, SOME), (0, Start), (0, Start)]),
                (22, 0, &[(20, OTHERS), (0, Start), (0, Start)]),
                (21, 0, &[(20, LOW), (0, Start), (0, Start)]),
            ],
        ),
    ];
    for (tick, lines) in table {
        check_trim(&rt, rt.alloc(), tick, lines)?;
    }
    Ok(())
}

#[test]
fn a_session_goes_on_from_its_trim_tick(rt: HostRuntime) -> Result<(), Fail> {
    check(
        &rt,
        rt.alloc(),
        Story {
            wiring: PULSE,
            starts: &[LOW],
            log: &[
                (Feed(1, 10, SOME), Done),
                (Hold(1, 20), Done),
                (Run(5), Rest(2)),
                (Trim(21), Refused(15)),
                (Trim(20), Done),
                (Value(1, 19), Refused(13)),
                (Value(1, 20), Refused(15)),
                (Value(2, 19), Refused(13)),
                (Value(2, 20), Shows(OTHERS)),
                (Value(2, 21), Shows(OTHERS)),
                (Value(2, 22), Refused(15)),
                (Value(3, 20), Shows(LOW)),
                (Value(3, 21), Refused(15)),
                (Feed(1, 25, LOW), Done),
                (Trim(21), Refused(15)),
                (Hold(1, 30), Done),
                (Take(2), Settled(32)),
                (Take(3), Settled(31)),
                (Value(2, 26), Shows(OTHERS)),
                (Value(2, 27), Shows(HIGH)),
            ],
            lines: &[
                (30, 1, &[(20, SOME), (25, LOW), (0, Start)]),
                (32, 1, &[(20, OTHERS), (27, HIGH), (0, Start)]),
                (31, 0, &[(20, LOW), (0, Start), (0, Start)]),
            ],
            spare: &[],
        },
    )
}

#[test]
fn trimming_waits_for_every_end_and_every_front(rt: HostRuntime) -> Result<(), Fail> {
    check(
        &rt,
        rt.alloc(),
        Story {
            wiring: Wiring {
                inputs: 2,
                gates: &[(Buf, 5, &[1]), (Not, 5, &[1])],
            },
            starts: &[LOW, HIGH],
            log: &[
                (Trim(0), Done),
                (Trim(1), Refused(15)),
                (Hold(1, 8), Done),
                (Trim(1), Refused(15)),
                (Hold(2, 6), Done),
                (Trim(1), Refused(15)),
                (Take(4), Settled(13)),
                (Trim(1), Refused(15)),
                (Take(3), Settled(13)),
                (Trim(7), Refused(15)),
                (Trim(6), Done),
                (Hold(2, 20), Done),
                (Trim(9), Refused(15)),
                (Trim(8), Done),
                (Trim(7), Refused(13)),
            ],
            lines: &[
                (8, 0, &[(8, LOW), (0, Start)]),
                (20, 0, &[(8, HIGH), (0, Start)]),
                (13, 0, &[(8, LOW), (0, Start)]),
                (13, 0, &[(8, HIGH), (0, Start)]),
            ],
            spare: &[],
        },
    )
}

#[test]
fn records_are_shared_out_evenly_and_the_rest_is_spare(rt: HostRuntime) -> Result<(), Fail> {
    check(
        &rt,
        rt.alloc(),
        Story {
            wiring: PULSE,
            starts: &[LOW],
            log: &[
                (Feed(1, 10, SOME), Done),
                (Hold(1, 20), Done),
                (Run(5), Rest(2)),
                (Trim(11), Done),
                (Feed(1, 20, LOW), Done),
                (Feed(1, 21, HIGH), Done),
                (Feed(1, 22, LOW), Refused(16)),
            ],
            lines: &[
                (22, 2, &[(11, SOME), (20, LOW), (21, HIGH)]),
                (22, 1, &[(11, HIGH), (12, OTHERS), (0, Start)]),
                (21, 2, &[(11, LOW), (11, SOME), (13, LOW)]),
            ],
            spare: &[UNTOUCHED, UNTOUCHED],
        },
    )
}
