// Taking gates.
ghost use Rattle.std.specs.Prelude.{◌≡◌, ℕ, ◌+◌, ◌-◌, ◌*◌, ◌<◌, ◌≤◌, true, false, Contains, OnErr};
ghost use Rattle.engine.specs.Answers.{numbered, Taking};
ghost use Rattle.engine.specs.Lines.{panel, Holds};
ghost use Rattle.engine.specs.Panels.{moved, last_tick};
ghost use Rattle.engine.specs.Looks.{Stepped, Followed};
ghost use Rattle.engine.specs.Standing.{machine_of, Shows, Stands, Keeps};
ghost use Rattle.engine.specs.Recordings.{OnlyThere};
ghost use Rattle.netlist.specs.Walks.{reads};
ghost use Rattle.semantics.specs.Accounts.{Account, settled};
ghost use Rattle.semantics.specs.Circuits.{gate_of_line, topology};
ghost use Rattle.semantics.specs.Machines.{IsGate};

use crate::evaluation::evaluate;
use crate::lines::Lines;
use crate::records::record;
use events::record::EventRecord;
use netlist::progress::Progress;
use netlist::refusal::Refusal;
use netlist::row::GateRow;
use values::system::ValueSystem;

// Moves a gate's front on to where a line that the gate reads changes, or to its goal; but not where a change comes for which
// there is no room.
fn step<V: ValueSystem>(
    lines: &mut Lines,
    store: &mut [EventRecord<V>],
    line: u32,
    row: &GateRow,
    goal: u32,
) -> bool
    requires a_gate { IsGate (topology (panel lines.old).circuit) line }
    requires its_row { row.now.gate ≡ gate_of_line (panel lines.old).circuit line }
    requires holds { Holds (panel lines.old) store.old }
    requires below { ((panel lines.old).progress line).tick < goal }
    ensures moves_one { panel lines.new ≡ moved (panel lines.old) line ((panel lines.new).progress line) }
    ensures only_there { OnlyThere ((line - 1) * lines.old.stride) lines.old.stride store.old store.new }
    ensures onward { result ≡ true → ((panel lines.old).progress line).tick < ((panel lines.new).progress line).tick }
    ensures stays { result ≡ false → (lines.new ≡ lines.old) × (store.new ≡ store.old) }
    ensures steps { (a : Account V.Sense) → Shows V.meaning V.system (panel lines.old) store.old a → a.trim ≤ a.front line → goal + row.now.gate.delay ≤ last_tick → ((m : ℕ) → Contains (reads (panel lines.old).circuit line) m → goal ≤ settled (topology (panel lines.old).circuit) a m) → Stepped V.meaning V.system (panel lines.old) a line goal (panel lines.new) store.new result }
{
    let front = lines.progress(line).tick;
    let look = evaluate(lines, store, row, front, goal);
    let tick = front.saturating_add(row.delay);
    let Some(kept) = record(lines, store, line, tick, look.value) else {
        return false;
    };
    // At least a tick on, so that taking ends; records in order tell no less.
    let until = look.until.max(front.saturating_add(1));
    lines.advance(line, Progress { tick: until, kept });
    true
}

// Moves a gate's front on as far as it goes.
fn follow<V: ValueSystem>(
    lines: &mut Lines,
    store: &mut [EventRecord<V>],
    line: u32,
    row: &GateRow,
    goal: u32,
)
    requires a_gate { IsGate (topology (panel lines.old).circuit) line }
    requires its_row { row.now.gate ≡ gate_of_line (panel lines.old).circuit line }
    requires holds { Holds (panel lines.old) store.old }
    ensures moves_one { panel lines.new ≡ moved (panel lines.old) line ((panel lines.new).progress line) }
    ensures only_there { OnlyThere ((line - 1) * lines.old.stride) lines.old.stride store.old store.new }
    ensures follows { (a : Account V.Sense) → Shows V.meaning V.system (panel lines.old) store.old a → a.trim ≤ a.front line → a.front line ≤ goal → goal + row.now.gate.delay ≤ last_tick → ((m : ℕ) → Contains (reads (panel lines.old).circuit line) m → goal ≤ settled (topology (panel lines.old).circuit) a m) → Followed V.meaning V.system (panel lines.old) a line goal (panel lines.new) store.new }
{
    while lines.progress(line).tick < goal {
        if !step(lines, store, line, row, goal) {
            return;
        }
    }
}

// Takes a gate: its front moves on towards its goal, and no other front does. Answers how far its line is settled.
pub(crate) fn take<V: ValueSystem>(
    lines: &mut Lines,
    store: &mut [EventRecord<V>],
    line: u32,
) -> Result<u32, Refusal>
    requires { Holds (panel lines.old) store.old }
    ensures keeps { Keeps (panel lines.old) (panel lines.new) store.old store.new }
    ensures refused_alters_nothing { OnErr result ((lines.new ≡ lines.old) × (store.new ≡ store.old)) }
    ensures answers { (a : Account V.Sense) → Stands V.meaning V.system (panel lines.old) store.old a → (b : Account V.Sense) × Taking (machine_of V.system (panel lines.old)) a line (numbered result) b × Stands V.meaning V.system (panel lines.new) store.new b }
{
    let Some(row) = lines.gate(line) else {
        return Err(Refusal::Line);
    };
    let goal = lines.goal(&row);
    if row.progress.tick >= goal {
        return Err(Refusal::Idle);
    }
    if !step(lines, store, line, &row, goal) {
        return Err(Refusal::Full);
    }
    follow(lines, store, line, &row, goal);
    Ok(lines.settled(line))
}
