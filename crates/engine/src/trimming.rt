// Dropping old changes.
ghost use Rattle.std.specs.Prelude.{◌≡◌, ℕ, ◌≤◌, OnErr};
ghost use Rattle.engine.specs.Answers.{numbered, Trimming};
ghost use Rattle.engine.specs.Droppings.{Dropping};
ghost use Rattle.engine.specs.Lines.{panel, Holds};
ghost use Rattle.engine.specs.Standing.{machine_of, Stands, Keeps};
ghost use Rattle.semantics.specs.Accounts.{Account, settled};
ghost use Rattle.semantics.specs.Circuits.{lines as line_count, topology};
ghost use Rattle.semantics.specs.Machines.{IsLine};

use crate::lines::Lines;
use crate::records::drop_below;
use events::record::EventRecord;
use netlist::progress::Progress;
use netlist::refusal::Refusal;
use values::system::ValueSystem;

// Drops the changes of all lines below a tick.
fn drop_all<V: ValueSystem>(lines: &mut Lines, store: &mut [EventRecord<V>], tick: u32)
    requires { Holds (panel lines.old) store.old }
    ensures keeps { Keeps (panel lines.old) (panel lines.new) store.old store.new }
    ensures drops { (a : Account V.Sense) → Stands V.meaning V.system (panel lines.old) store.old a → a.trim ≤ tick → ((n : ℕ) → IsLine (topology (panel lines.old).circuit) n → tick ≤ settled (topology (panel lines.old).circuit) a n) → Dropping V.meaning V.system (panel lines.old) a tick (line_count (panel lines.old).circuit) (panel lines.new) store.new }
{
    for place in 0..lines.netlist.lines() {
        let line = place as u32 + 1;
        let progress = lines.progress(line);
        let kept = drop_below(lines, store, line, tick);
        lines.advance(line, Progress { kept, ..progress });
    }
}

// Drops the changes below a tick, which becomes the trim tick.
pub(crate) fn trim<V: ValueSystem>(
    lines: &mut Lines,
    store: &mut [EventRecord<V>],
    tick: u32,
) -> Result<(), Refusal>
    requires { Holds (panel lines.old) store.old }
    ensures keeps { Keeps (panel lines.old) (panel lines.new) store.old store.new }
    ensures refused_alters_nothing { OnErr result ((lines.new ≡ lines.old) × (store.new ≡ store.old)) }
    ensures answers { (a : Account V.Sense) → Stands V.meaning V.system (panel lines.old) store.old a → (b : Account V.Sense) × Trimming (machine_of V.system (panel lines.old)) a tick (numbered result) b × Stands V.meaning V.system (panel lines.new) store.new b }
{
    if lines.netlist.lines() == 0 {
        return Err(Refusal::Unsettled);
    }
    if tick < lines.trim {
        return Err(Refusal::Past);
    }
    if let Some(_line) = lines.behind(tick) {
        return Err(Refusal::Unsettled);
    }
    drop_all(lines, store, tick);
    lines.trim = tick;
    Ok(())
}
