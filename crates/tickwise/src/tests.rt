// The worked logs of the rules, the limits of a netlist, and how many lines gates read.
use crate::circuit::{Circuit, Function};
use crate::draft::Draft;
use crate::refusal::Refusal;
use crate::session::{Change, Ran, Session};
use crate::three::Three;
use crate::two::Two;
use crate::value::Value;
use crate::walks::Walks;
use std::alloc::{AllocError, Global};
use std::test::Fail;

type Row<'a> = (Function, u32, &'a [u32]);

// Line 2 is NOT of line 1, an input; line 3 is AND of both; line 4 is BUF of line 3.
const PULSE: &[Row] = &[
    (Function::Not, 2, &[1]),
    (Function::And, 1, &[1, 2]),
    (Function::Buf, 4, &[3]),
];

// Lines 1 and 2 are inputs; lines 3 and 4 are NOR of one of them and of each other.
const LATCH: &[Row] = &[(Function::Nor, 1, &[2, 4]), (Function::Nor, 1, &[1, 3])];

fn drawn(alloc: Global, inputs: usize, rows: &[Row]) -> Result<Circuit, AllocError> {
    let mut draft = Draft::new(alloc, inputs, rows.len(), 1);
    for (function, delay, reads) in rows {
        let _ = draft.add_gate(alloc, *function, *delay, reads)?;
    }
    let _ = draft.add_output(1)?;
    Ok(draft.finish())
}

#[test]
fn limits_of_a_netlist(rt: HostRuntime) {
    let table = [
        (1, 1, 1, Ok(())),
        (256, 768, 256, Ok(())),
        (0, 768, 256, Err(Refusal::OutOfRange)),
        (256, 0, 256, Err(Refusal::OutOfRange)),
        (256, 768, 0, Err(Refusal::OutOfRange)),
        (257, 1, 1, Err(Refusal::OutOfRange)),
        (1, 769, 1, Err(Refusal::OutOfRange)),
        (1, 1, 257, Err(Refusal::OutOfRange)),
    ];
    for (inputs, gates, outputs, answer) in table {
        assert_eq!(rt;
            Draft::limits(inputs, gates, outputs),
            answer,
            "{inputs} inputs, {gates} gates, {outputs} outputs"
        );
    }
}

#[test]
fn draft_outside_the_limits_is_dead(rt: HostRuntime) -> Result<(), Fail> {
    let table = [
        (1, 1, 1, Ok(())),
        (0, 1, 1, Err(Refusal::OutOfOrder)),
        (257, 1, 1, Err(Refusal::OutOfOrder)),
        (1, 0, 1, Err(Refusal::OutOfOrder)),
        (1, 769, 1, Err(Refusal::OutOfOrder)),
        (1, 1, 0, Err(Refusal::OutOfOrder)),
        (1, 1, 257, Err(Refusal::OutOfOrder)),
    ];
    for (inputs, gates, outputs, answer) in table {
        let mut draft = Draft::new(rt.alloc(), inputs, gates, outputs);
        assert_eq!(rt;
            draft.add_gate(rt.alloc(), Function::Not, 1, &[1])?,
            answer,
            "{inputs} inputs, {gates} gates, {outputs} outputs"
        );
    }
    Ok(())
}

#[test]
fn lines_that_gates_read(rt: HostRuntime) {
    for count in 0..6usize {
        assert_eq!(rt; Function::Buf.takes(count), count == 1, "BUF of {count}");
        assert_eq!(rt; Function::Not.takes(count), count == 1, "NOT of {count}");
        let takes = (2..5).contains(&count);
        assert_eq!(rt; Function::And.takes(count), takes, "AND of {count}");
    }
}

#[test]
fn pulse_settles_to_its_distances(rt: HostRuntime) -> Result<(), Fail> {
    let alloc = rt.alloc();
    let circuit = drawn(alloc, 1, PULSE)?;
    let table = [
        (2, [Some(20), Some(22), Some(21), Some(25)], [1, 1, 2, 2]),
        (1, [Some(20), Some(22), Some(13), Some(17)], [1, 1, 1, 1]),
    ];
    for (room, settled, kept) in table {
        let mut session = Session::make(alloc, &circuit, 4 * (room + 1), &[Two(false)])?;
        assert_eq!(rt; session.feed(1, 10, Two(true))?, Ok(()));
        assert_eq!(rt; session.hold(1, 20)?, Ok(()));
        let Ran { rests, .. } = session.run(100);
        assert!(rt; rests && session.at_rest());
        let distances = session.distances()?;
        for line in 1..=4u32 {
            let place = line as usize - 1;
            assert_eq!(rt; Some(session.settled(line)), settled[place], "line {line}");
            assert_eq!(rt;
                distances.get(place).copied().flatten(),
                settled[place],
                "line {line}"
            );
            assert_eq!(rt;
                session.kept_changes(line)?.len(),
                kept[place],
                "line {line}"
            );
        }
    }
    Ok(())
}

#[test]
fn latch_begins_unknown(rt: HostRuntime) -> Result<(), Fail> {
    let alloc = rt.alloc();
    let circuit = drawn(alloc, 2, LATCH)?;
    let walks = Walks::new(alloc, &circuit)?;
    for (line, is_looped) in [(1, false), (2, false), (3, true), (4, true)] {
        assert_eq!(rt; walks.is_looped(line), is_looped, "line {line}");
    }
    let mut session = Session::make(alloc, &circuit, 16, &[Three::ONE, Three::ZERO])?;
    for line in 1..=2 {
        assert_eq!(rt; session.hold(line, 10)?, Ok(()));
    }
    let ran = session.run(u32::MAX);
    assert_eq!(rt;
        ran,
        Ran {
            takes: 11,
            rests: true
        }
    );
    assert_eq!(rt; (session.settled(3), session.settled(4)), (11, 11));
    let (first, second) = (session.event(4, 0), session.event(3, 0));
    assert_eq!(rt;
        first,
        Ok(Change {
            tick: 1,
            value: Three::ZERO
        })
    );
    assert_eq!(rt;
        second,
        Ok(Change {
            tick: 2,
            value: Three::ONE
        })
    );
    Ok(())
}

#[test]
fn refuses_by_the_first_test_that_fails(rt: HostRuntime) -> Result<(), Fail> {
    let alloc = rt.alloc();
    let circuit = drawn(alloc, 1, PULSE)?;
    let mut session = Session::make(alloc, &circuit, 8, &[Two(false)])?;
    let table = [
        (2, 5, true, Err(Refusal::NoSuchLine)),
        (1, 2_000_000_000, true, Err(Refusal::Late)),
        (1, 5, true, Ok(())),
        (1, 5, false, Err(Refusal::Past)),
        (1, 7, false, Err(Refusal::Full)),
        (1, 7, true, Ok(())),
    ];
    for (line, tick, bit, answer) in table {
        assert_eq!(rt;
            session.feed(line, tick, Two(bit))?,
            answer,
            "line {line} at {tick}"
        );
    }
    assert_eq!(rt; session.take(1), Err(Refusal::NoSuchLine));
    assert_eq!(rt; session.take(3), Ok(3));
    assert_eq!(rt; session.take(3), Err(Refusal::Idle));
    assert_eq!(rt; session.trim(1), Err(Refusal::Unsettled));
    Ok(())
}

#[test]
fn three_values_keep_what_is_known(rt: HostRuntime) {
    let values = [Three::ZERO, Three::ONE, Three::UNKNOWN];
    let and = [[0, 0, 0], [0, 1, 2], [0, 2, 2]];
    let or = [[0, 1, 2], [1, 1, 1], [2, 1, 2]];
    let xor = [[0, 1, 2], [1, 0, 2], [2, 2, 2]];
    for left in 0..3usize {
        for right in 0..3usize {
            let (a, b) = (values[left], values[right]);
            assert_eq!(rt;
                Some(&a.and(b)),
                values.get(and[left][right]),
                "{left} AND {right}"
            );
            assert_eq!(rt;
                Some(&a.or(b)),
                values.get(or[left][right]),
                "{left} OR {right}"
            );
            assert_eq!(rt;
                Some(&a.xor(b)),
                values.get(xor[left][right]),
                "{left} XOR {right}"
            );
        }
    }
}
