// Making: what it asks, and what lines begin with.
use super::base::Answer::{Done, Refused, Rest, Resting, Settled, Shows, Stands};
use super::base::Call::{AtRest, Event, Feed, Hold, Run, State, Take, Trim, Value};
use super::base::Level::{Start, Word};
use super::base::{
    Answer, Call, HIGH, LOW, Level, PULSE, Scale, Story, Told, UNTOUCHED, Wiring, begun, check,
    check_in, check_log, closed, untouched,
};
use engine::session::Session;
use netlist::closed::Netlist;
use netlist::kind::Kind::{And, Nand, Nor, Not, Or, Xor};
use netlist::progress::Progress;
use std::alloc::Global;
use std::process::Abort;
use std::test::Fail;
use values::bit::Bit;
use values::lanes::Lanes;
use values::ternary::Ternary;

// The netlist without lines.
const NOTHING: Wiring = Wiring {
    inputs: 0,
    gates: &[],
};

// Tests what is asked of a store of so many records, and of these values for inputs.
fn check_asked<V: Scale>(
    rt: &impl Abort,
    heap: Global,
    wiring: Wiring,
    records: usize,
    starts: &[Level],
    number: u8,
) -> Result<(), Fail> {
    let store = untouched::<V>(heap, records)?;
    let starts = begun::<V>(heap, starts)?;
    let told = match Session::check(&closed(wiring)?, &store, &starts) {
        Ok(()) => 0,
        Err(refusal) => refusal.number(),
    };
    assert_eq!(rt; told, number, "{records} records");
    Ok(())
}

#[test]
fn what_is_asked_and_in_which_order(rt: HostRuntime) -> Result<(), Fail> {
    // Lines are asked for first, then records, then values for inputs.
    let table: [(Wiring, usize, &[Level], u8); 13] = [
        (PULSE, 6, &[LOW], 0),
        (PULSE, 7, &[LOW], 0),
        (PULSE, 600, &[LOW], 0),
        (NOTHING, 0, &[], 8),
        (NOTHING, 6, &[], 8),
        (NOTHING, 0, &[LOW], 8),
        (PULSE, 5, &[LOW], 10),
        (PULSE, 3, &[LOW], 10),
        (PULSE, 0, &[LOW], 10),
        (PULSE, 5, &[], 10),
        (PULSE, 6, &[], 11),
        (PULSE, 6, &[LOW, LOW], 11),
        (PULSE, 600, &[LOW, LOW, LOW], 11),
    ];
    for (wiring, records, starts, number) in table {
        check_asked::<Bit>(&rt, rt.alloc(), wiring, records, starts, number)?;
        check_asked::<Ternary>(&rt, rt.alloc(), wiring, records, starts, number)?;
        check_asked::<Lanes>(&rt, rt.alloc(), wiring, records, starts, number)?;
    }
    Ok(())
}

// What a session without lines answers.
const WITHOUT_LINES: &[(Call, Answer<Level>)] = &[
    (AtRest, Resting(true)),
    (Run(0), Rest(0)),
    (Run(5), Rest(0)),
    (Feed(0, 0, LOW), Refused(12)),
    (Feed(1, 0, LOW), Refused(12)),
    (Feed(1, u32::MAX, LOW), Refused(12)),
    (Hold(0, 0), Refused(12)),
    (Hold(1, 0), Refused(12)),
    (Hold(1, u32::MAX), Refused(12)),
    (Take(0), Refused(12)),
    (Take(1), Refused(12)),
    (Take(2), Refused(12)),
    (Trim(0), Refused(15)),
    (Trim(1), Refused(15)),
    (Trim(u32::MAX), Refused(15)),
    (Value(0, 0), Refused(12)),
    (Value(1, 0), Refused(12)),
    (Value(2, 0), Refused(12)),
    (Event(0, 0), Refused(12)),
    (Event(1, 0), Refused(12)),
    (State(0), Refused(12)),
    (State(1), Refused(12)),
    (State(3), Refused(12)),
    (Run(5), Rest(0)),
];

fn check_without_lines(
    rt: &impl Abort,
    heap: Global,
    wiring: Wiring,
    starts: &[Level],
    spare: &[Told],
) -> Result<(), Fail> {
    check(
        rt,
        heap,
        Story {
            wiring,
            starts,
            log: WITHOUT_LINES,
            lines: &[],
            spare,
        },
    )
}

#[test]
fn where_nothing_can_be_made_there_are_no_lines(rt: HostRuntime) -> Result<(), Fail> {
    let table: [(Wiring, &[Level], &[Told]); 6] = [
        (NOTHING, &[], &[]),
        (NOTHING, &[LOW], &[UNTOUCHED; 6]),
        (PULSE, &[LOW], &[UNTOUCHED; 5]),
        (PULSE, &[LOW], &[]),
        (PULSE, &[], &[UNTOUCHED; 6]),
        (PULSE, &[LOW, LOW], &[UNTOUCHED; 6]),
    ];
    for (wiring, starts, spare) in table {
        check_without_lines(&rt, rt.alloc(), wiring, starts, spare)?;
    }
    Ok(())
}

// Lines 3 to 6 are given in an order in which they read later ones. Line 7 reads itself, and line 8 reads line 7.
const LEVELS: Wiring = Wiring {
    inputs: 2,
    gates: &[
        (Not, 1, &[4]),
        (And, 2, &[5, 1]),
        (Or, 3, &[1, 2]),
        (Xor, 1, &[3, 5]),
        (Nor, 1, &[1, 7]),
        (Nand, 1, &[7, 2]),
    ],
};

// What lines 3 to 8 begin with.
fn check_levels<V: Scale>(
    rt: &impl Abort,
    heap: Global,
    starts: [Level; 2],
    levels: [Level; 6],
) -> Result<(), Fail> {
    let [a, b] = starts;
    let [third, fourth, fifth, sixth, seventh, eighth] = levels;
    check_in::<V>(
        rt,
        heap,
        Story {
            wiring: LEVELS,
            starts: &[a, b],
            log: &[
                (Value(3, 0), Shows(third)),
                (Value(4, 1), Shows(fourth)),
                (Value(5, 2), Shows(fifth)),
                (Value(6, 0), Shows(sixth)),
                (Value(7, 0), Shows(seventh)),
                (Value(8, 0), Shows(eighth)),
            ],
            lines: &[
                (0, 0, &[(0, a), (0, Start)]),
                (0, 0, &[(0, b), (0, Start)]),
                (1, 0, &[(0, third), (0, Start)]),
                (2, 0, &[(0, fourth), (0, Start)]),
                (3, 0, &[(0, fifth), (0, Start)]),
                (1, 0, &[(0, sixth), (0, Start)]),
                (1, 0, &[(0, seventh), (0, Start)]),
                (1, 0, &[(0, eighth), (0, Start)]),
            ],
            spare: &[],
        },
    )
}

#[test]
fn what_lines_begin_with_through_several_gates(rt: HostRuntime) -> Result<(), Fail> {
    let bits = [
        ([LOW, LOW], [HIGH, LOW, LOW, HIGH, Start, HIGH]),
        ([LOW, HIGH], [HIGH, LOW, HIGH, LOW, Start, HIGH]),
        ([HIGH, LOW], [LOW, HIGH, HIGH, HIGH, Start, HIGH]),
        ([HIGH, HIGH], [LOW, HIGH, HIGH, HIGH, Start, HIGH]),
    ];
    for (starts, levels) in bits {
        check_levels::<Bit>(&rt, rt.alloc(), starts, levels)?;
        check_levels::<Lanes>(&rt, rt.alloc(), starts, levels)?;
    }
    let three = [
        ([LOW, LOW], [HIGH, LOW, LOW, HIGH, Start, HIGH]),
        ([LOW, HIGH], [HIGH, LOW, HIGH, LOW, Start, Start]),
        ([HIGH, LOW], [LOW, HIGH, HIGH, HIGH, Start, HIGH]),
        ([HIGH, Start], [LOW, HIGH, HIGH, HIGH, Start, Start]),
        ([Start, LOW], [Start, Start, Start, Start, Start, HIGH]),
        ([LOW, Start], [HIGH, LOW, Start, Start, Start, Start]),
    ];
    for (starts, levels) in three {
        check_levels::<Ternary>(&rt, rt.alloc(), starts, levels)?;
    }
    let levels = [
        Word(0xffff_ffff_ffff_fff3),
        Word(0xc),
        Word(0xe),
        Word(0xffff_ffff_ffff_fffd),
        Start,
        HIGH,
    ];
    check_levels::<Lanes>(&rt, rt.alloc(), [Word(0xc), Word(0xa)], levels)
}

#[test]
fn what_lines_begin_with_against_their_order(rt: HostRuntime) -> Result<(), Fail> {
    // Each of the inverters reads the next line, and the last reads the input.
    check(
        &rt,
        rt.alloc(),
        Story {
            wiring: Wiring {
                inputs: 1,
                gates: &[
                    (Not, 1, &[3]),
                    (Not, 1, &[4]),
                    (Not, 1, &[5]),
                    (Not, 1, &[6]),
                    (Not, 1, &[7]),
                    (Not, 1, &[1]),
                ],
            },
            starts: &[HIGH],
            log: &[
                (Feed(1, 0, LOW), Done),
                (Take(7), Settled(2)),
                (Take(6), Settled(3)),
                (Take(5), Settled(4)),
                (Take(4), Settled(5)),
                (Take(3), Settled(6)),
                (Take(2), Settled(7)),
                (Run(9), Rest(0)),
            ],
            lines: &[
                (1, 1, &[(0, HIGH), (0, LOW)]),
                (7, 1, &[(0, HIGH), (6, LOW)]),
                (6, 1, &[(0, LOW), (5, HIGH)]),
                (5, 1, &[(0, HIGH), (4, LOW)]),
                (4, 1, &[(0, LOW), (3, HIGH)]),
                (3, 1, &[(0, HIGH), (2, LOW)]),
                (2, 1, &[(0, LOW), (1, HIGH)]),
            ],
            spare: &[],
        },
    )
}

// A netlist that tells of a line that it has come up to a tick.
fn advanced(wiring: Wiring, line: u32) -> Result<Netlist, Fail> {
    let mut netlist = closed(wiring)?;
    netlist.advance(line, Progress { tick: 9, kept: 1 });
    Ok(netlist)
}

fn check_advanced<V: Scale>(rt: &impl Abort, heap: Global, line: u32) -> Result<(), Fail> {
    let starts = begun::<V>(heap, &[LOW])?;
    let mut store = untouched::<V>(heap, 6)?;
    let mut session = Session::make(advanced(PULSE, line)?, &mut store, &starts);
    check_log(
        rt,
        &mut session,
        &[
            (State(1), Stands(0, 0)),
            (State(2), Stands(2, 0)),
            (State(3), Stands(1, 0)),
        ],
    );
    Ok(())
}

#[test]
fn lines_begin_at_tick_0_whatever_a_netlist_tells(rt: HostRuntime) -> Result<(), Fail> {
    for line in 1..4 {
        check_advanced::<Bit>(&rt, rt.alloc(), line)?;
        check_advanced::<Ternary>(&rt, rt.alloc(), line)?;
        check_advanced::<Lanes>(&rt, rt.alloc(), line)?;
    }
    Ok(())
}
