// All changes of a session in the order of their ticks.
use crate::level::Shown;
use engine::session::{LineState, Session};
use events::record::EventRecord;
use std::alloc::{AllocError, Global};

// A change of a line: its tick, and the value from there on, if it is known.
#[derive(Clone, Copy)]
pub struct Change<V> {
    pub tick: u32,
    pub line: u32,
    pub value: Option<V>,
}

// How many lines a session has.
pub fn lines<V: Shown>(session: &Session<V>) -> u32 {
    u32::try_from(session.netlist().lines()).unwrap_or(0)
}

// How far a line is settled, and how many changes are kept of it; nothing of a line that there is not.
pub fn state<V: Shown>(session: &Session<V>, line: u32) -> LineState {
    session.state(line).unwrap_or(LineState {
        settled: 0,
        kept: 0,
    })
}

// The greatest tick up to which some line is settled.
pub fn end<V: Shown>(session: &Session<V>) -> u32 {
    let mut end = 0;
    for line in 1..=lines(session) {
        end = end.max(state(session, line).settled);
    }
    end
}

// The value of a line before tick 0, in a session that was not trimmed and whose inputs begin with START. A gate has a
// delay of 1 or more, so it keeps its first value at tick 0.
pub fn initial<V: Shown>(session: &Session<V>, line: u32) -> V {
    if line as usize <= session.netlist().inputs() {
        return V::START;
    }
    session.value(line, 0).unwrap_or(V::START)
}

// Adds the changes of a line. It is not known any more from where it is settled up to, unless that is the end.
fn add_changes<V: Shown>(
    changes: &mut Vec<Change<V>>,
    session: &Session<V>,
    line: u32,
    end: u32,
) -> Result<(), AllocError> {
    let LineState { settled, kept } = state(session, line);
    for k in 0..kept {
        if let Ok(EventRecord { tick, value }) = session.event(line, k) {
            let value = Some(value);
            changes.push(Change { tick, line, value })?;
        }
    }
    if settled < end {
        changes.push(Change {
            tick: settled,
            line,
            value: None,
        })?;
    }
    Ok(())
}

// The changes of all lines, by their ticks and then by lines.
pub fn changes<V: Shown>(
    alloc: Global,
    session: &Session<V>,
) -> Result<Vec<Change<V>>, AllocError> {
    let end = end(session);
    let mut changes = Vec::new(alloc);
    for line in 1..=lines(session) {
        add_changes(&mut changes, session, line, end)?;
    }
    changes.sort_unstable_by_key(|change| (change.tick, change.line));
    Ok(changes)
}
