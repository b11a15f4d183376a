// Refused calls.
use super::base::Answer::{Done, Refused, Rest, Resting, Settled, Shows, Stands};
use super::base::Call::{AtRest, Event, Feed, Hold, Run, State, Take, Trim, Value};
use super::base::Level::Start;
use super::base::{HIGH, LOW, OTHERS, PULSE, SOME, Story, Wiring, check};
use netlist::kind::Kind::{And, Not};
use std::test::Fail;

#[test]
fn refused_calls_leave_a_session_as_it_was_made(rt: HostRuntime) -> Result<(), Fail> {
    check(
        &rt,
        rt.alloc(),
        Story {
            wiring: PULSE,
            starts: &[LOW],
            log: &[
                // No such line.
                (Feed(0, 0, HIGH), Refused(12)),
                (Feed(4, 0, HIGH), Refused(12)),
                (Feed(u32::MAX, 0, HIGH), Refused(12)),
                (Hold(0, 5), Refused(12)),
                (Hold(4, 5), Refused(12)),
                (Hold(u32::MAX, 5), Refused(12)),
                (Take(0), Refused(12)),
                (Take(4), Refused(12)),
                (Take(u32::MAX), Refused(12)),
                (Value(0, 0), Refused(12)),
                (Value(4, 0), Refused(12)),
                (Value(u32::MAX, 0), Refused(12)),
                (Event(0, 0), Refused(12)),
                (Event(4, 0), Refused(12)),
                (Event(u32::MAX, 0), Refused(12)),
                (State(0), Refused(12)),
                (State(4), Refused(12)),
                (State(u32::MAX), Refused(12)),
                // Lines of gates where inputs are asked for, and the other way round.
                (Feed(2, 0, HIGH), Refused(12)),
                (Feed(3, 0, HIGH), Refused(12)),
                (Hold(2, 5), Refused(12)),
                (Hold(3, 5), Refused(12)),
                (Take(1), Refused(12)),
                // Ticks that are too late.
                (Feed(1, 2_000_000_000, HIGH), Refused(14)),
                (Feed(1, u32::MAX, HIGH), Refused(14)),
                (Hold(1, 2_000_000_001), Refused(14)),
                (Hold(1, u32::MAX), Refused(14)),
                // Ticks that are not settled.
                (Trim(1), Refused(15)),
                (Trim(u32::MAX), Refused(15)),
                (Value(1, 0), Refused(15)),
                (Value(2, 2), Refused(15)),
                (Value(3, 1), Refused(15)),
                (Value(3, u32::MAX), Refused(15)),
                // Nothing to take, and no change.
                (Take(2), Refused(17)),
                (Take(3), Refused(17)),
                (Event(1, 0), Refused(18)),
                (Event(2, 0), Refused(18)),
                (Event(3, usize::MAX), Refused(18)),
                (AtRest, Resting(true)),
                (Run(9), Rest(0)),
            ],
            lines: &[
                (0, 0, &[(0, LOW), (0, Start)]),
                (2, 0, &[(0, HIGH), (0, Start)]),
                (1, 0, &[(0, LOW), (0, Start)]),
            ],
            spare: &[],
        },
    )
}

#[test]
fn refused_calls_leave_a_session_that_was_run_as_it_was(rt: HostRuntime) -> Result<(), Fail> {
    check(
        &rt,
        rt.alloc(),
        Story {
            wiring: PULSE,
            starts: &[LOW],
            log: &[
                (Feed(1, 10, SOME), Done),
                (Hold(1, 20), Done),
                (Run(9), Rest(2)),
                (Trim(10), Done),
                // The line, whatever the tick is.
                (Feed(0, 0, LOW), Refused(12)),
                (Feed(2, 0, LOW), Refused(12)),
                (Feed(3, u32::MAX, LOW), Refused(12)),
                (Hold(4, 0), Refused(12)),
                (Hold(2, u32::MAX), Refused(12)),
                (Take(1), Refused(12)),
                (Value(0, 0), Refused(12)),
                (Value(4, u32::MAX), Refused(12)),
                (Event(4, 9), Refused(12)),
                // Ticks below what is held, even where the change has no room.
                (Feed(1, 19, LOW), Refused(13)),
                (Feed(1, 19, SOME), Refused(13)),
                (Feed(1, 0, LOW), Refused(13)),
                (Hold(1, 19), Refused(13)),
                (Hold(1, 0), Refused(13)),
                (Trim(9), Refused(13)),
                (Trim(0), Refused(13)),
                (Value(1, 9), Refused(13)),
                (Value(2, 9), Refused(13)),
                (Value(3, 0), Refused(13)),
                // Ticks that are too late, even where the change has no room.
                (Feed(1, 2_000_000_000, LOW), Refused(14)),
                (Feed(1, u32::MAX, LOW), Refused(14)),
                (Hold(1, 2_000_000_001), Refused(14)),
                // Ticks that are not settled.
                (Trim(13), Refused(15)),
                (Trim(20), Refused(15)),
                (Trim(u32::MAX), Refused(15)),
                (Value(1, 20), Refused(15)),
                (Value(2, 22), Refused(15)),
                (Value(3, 13), Refused(15)),
                // No room, and nothing to take even where there is no room.
                (Feed(1, 20, LOW), Refused(16)),
                (Feed(1, 1_999_999_999, LOW), Refused(16)),
                (Take(3), Refused(16)),
                (Take(2), Refused(17)),
                // No change.
                (Event(1, 1), Refused(18)),
                (Event(2, 1), Refused(18)),
                (Event(3, 1), Refused(18)),
                (Event(3, usize::MAX), Refused(18)),
                (AtRest, Resting(true)),
                (Run(9), Rest(0)),
                // What the last of the settled ticks and the first of the kept ones show.
                (Value(1, 10), Shows(SOME)),
                (Value(1, 19), Shows(SOME)),
                (Value(2, 10), Shows(HIGH)),
                (Value(2, 21), Shows(OTHERS)),
                (Value(3, 10), Shows(LOW)),
                (Value(3, 12), Shows(SOME)),
            ],
            lines: &[
                (20, 1, &[(10, LOW), (10, SOME)]),
                (22, 1, &[(10, HIGH), (12, OTHERS)]),
                (13, 1, &[(10, LOW), (11, SOME)]),
            ],
            spare: &[],
        },
    )
}

#[test]
fn inputs_are_given_up_to_the_last_tick(rt: HostRuntime) -> Result<(), Fail> {
    check(
        &rt,
        rt.alloc(),
        Story {
            wiring: Wiring {
                inputs: 1,
                gates: &[
                    (Not, 65_535, &[1]),
                    (And, 65_535, &[1, 2]),
                    (Not, 65_535, &[2]),
                ],
            },
            starts: &[LOW],
            log: &[
                (Feed(1, 2_000_000_000, HIGH), Refused(14)),
                (Feed(1, 1_999_999_999, HIGH), Done),
                (State(1), Stands(2_000_000_000, 1)),
                (Feed(1, 1_999_999_999, LOW), Refused(13)),
                (Feed(1, 2_000_000_000, LOW), Refused(14)),
                (Hold(1, 1_999_999_999), Refused(13)),
                (Hold(1, 2_000_000_001), Refused(14)),
                (Hold(1, 2_000_000_000), Done),
                (Run(9), Rest(3)),
                (Value(1, 1_999_999_999), Shows(HIGH)),
                (Value(1, 2_000_000_000), Refused(15)),
                (Value(4, 2_000_131_068), Shows(LOW)),
                (Value(4, 2_000_131_069), Shows(HIGH)),
                (Value(4, 2_000_131_070), Refused(15)),
                (Trim(2_000_000_001), Refused(15)),
                (Trim(2_000_000_000), Done),
                (Value(1, 1_999_999_999), Refused(13)),
            ],
            lines: &[
                (2_000_000_000, 0, &[(2_000_000_000, HIGH), (0, Start)]),
                (
                    2_000_065_535,
                    1,
                    &[(2_000_000_000, HIGH), (2_000_065_534, LOW)],
                ),
                (
                    2_000_065_535,
                    1,
                    &[(2_000_000_000, LOW), (2_000_065_534, HIGH)],
                ),
                (
                    2_000_131_070,
                    1,
                    &[(2_000_000_000, LOW), (2_000_131_069, HIGH)],
                ),
            ],
            spare: &[],
        },
    )
}

#[test]
fn a_hold_from_the_first_tick_to_the_last(rt: HostRuntime) -> Result<(), Fail> {
    check(
        &rt,
        rt.alloc(),
        Story {
            wiring: PULSE,
            starts: &[HIGH],
            log: &[
                (Hold(1, 2_000_000_000), Done),
                (Take(2), Settled(2_000_000_002)),
                (Take(3), Settled(2_000_000_001)),
            ],
            lines: &[
                (2_000_000_000, 0, &[(0, HIGH), (0, Start)]),
                (2_000_000_002, 0, &[(0, LOW), (0, Start)]),
                (2_000_000_001, 0, &[(0, LOW), (0, Start)]),
            ],
            spare: &[],
        },
    )
}
