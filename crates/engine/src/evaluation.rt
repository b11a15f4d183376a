// What lines show, and what gates make of it.
ghost use Rattle.std.specs.Prelude.{ℕ, ◌<◌, ◌≤◌, length, Contains};
ghost use Rattle.engine.specs.Lines.{panel, Holds};
ghost use Rattle.engine.specs.Panels.{IsLineOf};
ghost use Rattle.engine.specs.Looks.{Glanced, Folded, Evaluated};
ghost use Rattle.engine.specs.Standing.{machine_of, Shows};
ghost use Rattle.semantics.specs.Accounts.{Account, settled};

use crate::lines::Lines;
use crate::records::events_of;
use events::record::EventRecord;
use gates::{combine, finish};
use netlist::kind::Kind;
use netlist::row::GateRow;
use values::system::ValueSystem;

// A value, and the tick up to which it stays.
#[derive(Clone, Copy)]
pub(crate) struct Look<V> {
    pub value: V,
    pub until: u32,
}

// What a line shows at a tick, and how long, up to a limit.
pub(crate) fn glance<V: ValueSystem>(
    lines: &Lines,
    store: &[EventRecord<V>],
    line: u32,
    tick: u32,
    limit: u32,
) -> Look<V>
    requires a_line { IsLineOf (panel lines.now) line }
    requires holds { Holds (panel lines.now) store.now }
    ensures { (a : Account V.Sense) → Shows V.meaning V.system (panel lines.now) store.now a → a.trim ≤ tick → tick < limit → limit ≤ settled (machine_of V.system (panel lines.now)).topology a line → Glanced V.meaning (machine_of V.system (panel lines.now)) a line tick limit result }
{
    let around = events_of(lines, store, line).around(tick);
    let until = around.until(limit);
    Look {
        value: around.last.value,
        until,
    }
}

// The values of more lines at a tick folded into a value, and how long they all stay.
fn fold<V: ValueSystem>(
    lines: &Lines,
    store: &[EventRecord<V>],
    kind: Kind,
    first: Look<V>,
    reads: &[u32],
    tick: u32,
) -> Look<V>
    requires of_lines { (m : ℕ) → Contains reads.now m → IsLineOf (panel lines.now) m }
    requires holds { Holds (panel lines.now) store.now }
    ensures { (a : Account V.Sense) → Shows V.meaning V.system (panel lines.now) store.now a → a.trim ≤ tick → tick < first.until → ((m : ℕ) → Contains reads.now m → first.until ≤ settled (machine_of V.system (panel lines.now)).topology a m) → Folded V.meaning (machine_of V.system (panel lines.now)) a V.system kind reads.now tick first result }
{
    let mut value = first.value;
    let mut until = first.until;
    for line in reads {
        let next = glance(lines, store, *line, tick, until);
        value = combine(kind, value, next.value);
        until = next.until;
    }
    Look { value, until }
}

// What a gate makes of the values of the lines that it reads at a tick, and how long, up to a limit, they all stay.
pub(crate) fn evaluate<V: ValueSystem>(
    lines: &Lines,
    store: &[EventRecord<V>],
    row: &GateRow,
    tick: u32,
    limit: u32,
) -> Look<V>
    requires some { 0 < length row.now.gate.reads }
    requires of_lines { (m : ℕ) → Contains row.now.gate.reads m → IsLineOf (panel lines.now) m }
    requires holds { Holds (panel lines.now) store.now }
    ensures { (a : Account V.Sense) → Shows V.meaning V.system (panel lines.now) store.now a → a.trim ≤ tick → tick < limit → ((m : ℕ) → Contains row.now.gate.reads m → limit ≤ settled (machine_of V.system (panel lines.now)).topology a m) → Evaluated V.meaning (machine_of V.system (panel lines.now)) a V.system row.now.gate.kind row.now.gate.reads tick limit result }
{
    let reads = row.reads();
    let first = glance(lines, store, reads[0], tick, limit);
    let all = fold(lines, store, row.kind, first, &reads[1..], tick);
    Look {
        value: finish(row.kind, all.value),
        until: all.until,
    }
}
