// What inputs are given.
ghost use Rattle.std.specs.Prelude.{◌≡◌, OnErr};
ghost use Rattle.engine.specs.Answers.{numbered, Feeding, Holding};
ghost use Rattle.engine.specs.Lines.{panel, Holds};
ghost use Rattle.engine.specs.Standing.{machine_of, Stands, Keeps};
ghost use Rattle.semantics.specs.Accounts.{Account};

use crate::lines::Lines;
use crate::records::record;
use events::record::EventRecord;
use netlist::progress::Progress;
use netlist::refusal::Refusal;
use values::system::ValueSystem;

// The last tick up to which an input may be held; it may be fed below it.
const LAST_END: u32 = 2_000_000_000;

// An input keeps its last value up to a tick, where a new value begins.
pub(crate) fn feed<V: ValueSystem>(
    lines: &mut Lines,
    store: &mut [EventRecord<V>],
    line: u32,
    tick: u32,
    value: V,
) -> Result<(), Refusal>
    requires { Holds (panel lines.old) store.old }
    ensures keeps { Keeps (panel lines.old) (panel lines.new) store.old store.new }
    ensures refused_alters_nothing { OnErr result ((lines.new ≡ lines.old) × (store.new ≡ store.old)) }
    ensures answers { (a : Account V.Sense) → Stands V.meaning V.system (panel lines.old) store.old a → (b : Account V.Sense) × Feeding (machine_of V.system (panel lines.old)) a line tick (V.meaning value) (numbered result) b × Stands V.meaning V.system (panel lines.new) store.new b }
{
    let Some(progress) = lines.input(line) else {
        return Err(Refusal::Line);
    };
    if tick < progress.tick {
        return Err(Refusal::Past);
    }
    if tick >= LAST_END {
        return Err(Refusal::Late);
    }
    let Some(kept) = record(lines, store, line, tick, value) else {
        return Err(Refusal::Full);
    };
    lines.advance(
        line,
        Progress {
            tick: tick + 1,
            kept,
        },
    );
    Ok(())
}

// An input keeps its last value up to a tick.
pub(crate) fn hold<V: ValueSystem>(
    lines: &mut Lines,
    store: &mut [EventRecord<V>],
    line: u32,
    tick: u32,
) -> Result<(), Refusal>
    requires { Holds (panel lines.old) store.old }
    ensures keeps { Keeps (panel lines.old) (panel lines.new) store.old store.new }
    ensures refused_alters_nothing { OnErr result ((lines.new ≡ lines.old) × (store.new ≡ store.old)) }
    ensures answers { (a : Account V.Sense) → Stands V.meaning V.system (panel lines.old) store.old a → (b : Account V.Sense) × Holding (machine_of V.system (panel lines.old)) a line tick (numbered result) b × Stands V.meaning V.system (panel lines.new) store.new b }
{
    let Some(progress) = lines.input(line) else {
        return Err(Refusal::Line);
    };
    if tick < progress.tick {
        return Err(Refusal::Past);
    }
    if tick > LAST_END {
        return Err(Refusal::Late);
    }
    lines.advance(line, Progress { tick, ..progress });
    Ok(())
}
