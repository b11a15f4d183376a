// What is asked of lines and their records.
ghost use Rattle.std.specs.Prelude.{◌≡◌};
ghost use Rattle.engine.specs.Answers.{answered, stated, Valued, Eventful, Stated};
ghost use Rattle.engine.specs.Lines.{panel, Holds};
ghost use Rattle.engine.specs.Standing.{machine_of, Stands};
ghost use Rattle.engine.specs.Stores.{seen};
ghost use Rattle.semantics.specs.Accounts.{Account};

use crate::evaluation::glance;
use crate::lines::Lines;
use crate::records::events_of;
use events::record::EventRecord;
use netlist::refusal::Refusal;
use values::system::ValueSystem;

// How far a line is settled, and how many of its changes are kept.
#[derive(Clone, Copy, PartialEq, Eq, Debug)]
pub struct LineState {
    pub settled: u32,
    pub kept: usize,
}

// The value of a line at a tick.
pub(crate) fn value<V: ValueSystem>(
    lines: &Lines,
    store: &[EventRecord<V>],
    line: u32,
    tick: u32,
) -> Result<V, Refusal>
    requires { Holds (panel lines.now) store.now }
    ensures { (a : Account V.Sense) → Stands V.meaning V.system (panel lines.now) store.now a → Valued (machine_of V.system (panel lines.now)) a line tick (answered V.meaning result) }
{
    if !lines.has(line) {
        return Err(Refusal::Line);
    }
    if tick < lines.trim {
        return Err(Refusal::Past);
    }
    let settled = lines.settled(line);
    if tick >= settled {
        return Err(Refusal::Unsettled);
    }
    Ok(glance(lines, store, line, tick, settled).value)
}

// A kept change of a line, counted from 0.
pub(crate) fn event<V: ValueSystem>(
    lines: &Lines,
    store: &[EventRecord<V>],
    line: u32,
    k: usize,
) -> Result<EventRecord<V>, Refusal>
    requires { Holds (panel lines.now) store.now }
    ensures { (a : Account V.Sense) → Stands V.meaning V.system (panel lines.now) store.now a → Eventful (machine_of V.system (panel lines.now)) a line k (answered (seen V.meaning) result) }
{
    if !lines.has(line) {
        return Err(Refusal::Line);
    }
    match events_of(lines, store, line).changes.get(k) {
        Some(change) => Ok(*change),
        None => Err(Refusal::None),
    }
}

// How far a line is settled, and how many of its changes are kept.
pub(crate) fn state<V: ValueSystem>(
    lines: &Lines,
    store: &[EventRecord<V>],
    line: u32,
) -> Result<LineState, Refusal>
    requires { Holds (panel lines.now) store.now }
    ensures { (a : Account V.Sense) → Stands V.meaning V.system (panel lines.now) store.now a → Stated (machine_of V.system (panel lines.now)) a line (answered stated result) }
{
    if !lines.has(line) {
        return Err(Refusal::Line);
    }
    Ok(LineState {
        settled: lines.settled(line),
        kept: lines.progress(line).kept,
    })
}
