// How lines begin.
ghost use Rattle.std.specs.Prelude.{◌≡◌, ℕ, suc, Contains, length, map, false, slice_index_or};
ghost use Rattle.engine.specs.Lines.{panel, Holds};
ghost use Rattle.engine.specs.Panels.{IsLineOf};
ghost use Rattle.engine.specs.Makings.{base, AllBegun, SettledAt, RightTo, AllRight};
ghost use Rattle.engine.specs.Sessions.{given};
ghost use Rattle.engine.specs.Standing.{Keeps};
ghost use Rattle.gates.specs.Functions.{combined, finished, gate_function};
ghost use Rattle.semantics.specs.Circuits.{Wired};

use crate::lines::Lines;
use crate::records::{begin, rebase};
use events::record::EventRecord;
use gates::{combine, finish};
use netlist::kind::Kind;
use netlist::row::GateRow;
use values::system::ValueSystem;

// The value given for a line to begin with, or START.
fn start_of<V: ValueSystem>(starts: &[V], place: usize) -> V
    ensures { result ≡ slice_index_or starts.now place V.START }
{
    starts.get(place).copied().unwrap_or(V::START)
}

// Begins every input's line with the value given for it, and every gate's line with START.
pub(crate) fn begin_all<V: ValueSystem>(lines: &Lines, store: &mut [EventRecord<V>], starts: &[V])
    requires { Holds (panel lines.now) store.old }
    ensures keeps { Keeps (panel lines.now) (panel lines.now) store.old store.new }
    ensures begun { AllBegun V.START lines.now.stride store.new (panel lines.now).circuit }
    ensures right { length starts.now ≡ (panel lines.now).circuit.inputs → RightTo V.system (panel lines.now).circuit (given V.meaning V.START starts.now) 0 (λ n. V.meaning (base V.START lines.now.stride store.new n)) }
{
    for place in 0..lines.netlist.lines() {
        begin(lines, store, place as u32 + 1, start_of(starts, place));
    }
}

// What a line begins with, as its base tells.
fn base_of<V: ValueSystem>(lines: &Lines, store: &[EventRecord<V>], line: u32) -> V
    requires a_line { IsLineOf (panel lines.now) line }
    requires holds { Holds (panel lines.now) store.now }
    ensures { result ≡ base V.START lines.now.stride store.now line }
{
    store[lines.place(line)].value
}

// What a gate makes of what the lines that it reads begin with.
fn begin_value<V: ValueSystem>(lines: &Lines, store: &[EventRecord<V>], row: &GateRow) -> V
    requires of_lines { (m : ℕ) → Contains row.now.gate.reads m → IsLineOf (panel lines.now) m }
    requires holds { Holds (panel lines.now) store.now }
    ensures { V.meaning result ≡ gate_function V.system row.now.gate.kind (map (λ m. V.meaning (base V.START lines.now.stride store.now m)) row.now.gate.reads) }
{
    let [first, others @ ..] = row.reads() else {
        return V::START;
    };
    let mut fold = base_of(lines, store, *first);
    for line in others {
        fold = combine(row.kind, fold, base_of(lines, store, *line));
    }
    finish(row.kind, fold)
}

// Gives the line of a gate, unless it is looped, the value that its gate makes of what the lines that it reads begin with, and
// answers `false` only where nothing is altered.
fn settle<V: ValueSystem>(lines: &Lines, store: &mut [EventRecord<V>], line: u32) -> bool
    requires holds { Holds (panel lines.now) store.old }
    ensures keeps { Keeps (panel lines.now) (panel lines.now) store.old store.new }
    ensures begun { AllBegun V.START lines.now.stride store.old (panel lines.now).circuit → AllBegun V.START lines.now.stride store.new (panel lines.now).circuit }
    ensures settles { SettledAt V.system (panel lines.now).circuit line (λ n. V.meaning (base V.START lines.now.stride store.old n)) (λ n. V.meaning (base V.START lines.now.stride store.new n)) }
    ensures unaltered { result ≡ false → store.new ≡ store.old }
{
    let Some(row) = lines.gate(line) else {
        return false;
    };
    if row.looped {
        return false;
    }
    let value = begin_value(lines, store, &row);
    if base_of(lines, store, line).same(value) {
        return false;
    }
    rebase(lines, store, line, value);
    true
}

// Settles each line once, in their order, and answers `false` only where none is altered. So the lines are right one gate
// deeper.
fn pass<V: ValueSystem>(lines: &Lines, store: &mut [EventRecord<V>]) -> bool
    requires { Holds (panel lines.now) store.old }
    ensures keeps { Keeps (panel lines.now) (panel lines.now) store.old store.new }
    ensures begun { AllBegun V.START lines.now.stride store.old (panel lines.now).circuit → AllBegun V.START lines.now.stride store.new (panel lines.now).circuit }
    ensures deeper { (start : ℕ → V.Sense) (k : ℕ) → RightTo V.system (panel lines.now).circuit start k (λ n. V.meaning (base V.START lines.now.stride store.old n)) → RightTo V.system (panel lines.now).circuit start (suc k) (λ n. V.meaning (base V.START lines.now.stride store.new n)) }
    ensures unaltered { result ≡ false → store.new ≡ store.old }
{
    let mut altered = false;
    for place in 0..lines.netlist.lines() {
        if settle(lines, store, place as u32 + 1) {
            altered = true;
        }
    }
    altered
}

// Settles what all gates' lines begin with, where inputs and looped lines have begun.
pub(crate) fn settle_all<V: ValueSystem>(lines: &Lines, store: &mut [EventRecord<V>])
    requires { Holds (panel lines.now) store.old }
    ensures keeps { Keeps (panel lines.now) (panel lines.now) store.old store.new }
    ensures begun { AllBegun V.START lines.now.stride store.old (panel lines.now).circuit → AllBegun V.START lines.now.stride store.new (panel lines.now).circuit }
    ensures right { (start : ℕ → V.Sense) → RightTo V.system (panel lines.now).circuit start 0 (λ n. V.meaning (base V.START lines.now.stride store.old n)) → AllRight V.system (panel lines.now).circuit start (λ n. V.meaning (base V.START lines.now.stride store.new n)) }
{
    for passes in 0..lines.netlist.lines() + 1 {
        if !pass(lines, store) {
            return;
        }
    }
}
