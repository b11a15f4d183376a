// Which gate is taken next, and runs.
ghost use Rattle.std.specs.Prelude.{◌≡◌, ℕ, ◌<◌, ◌≤◌, true, false, length, Decides};
ghost use Rattle.engine.specs.Answers.{ending_of};
ghost use Rattle.engine.specs.Lines.{panel, Holds};
ghost use Rattle.engine.specs.Orders.{Keyed, Queued, QueuedBut, KeysStay, KeyedAt};
ghost use Rattle.engine.specs.Standing.{machine_of, Stands, Keeps};
ghost use Rattle.semantics.specs.Accounts.{Account};
ghost use Rattle.semantics.specs.Circuits.{gate_of_line, topology};
ghost use Rattle.semantics.specs.Logs as Logs;
ghost use Rattle.semantics.specs.Logs.{Run};
ghost use Rattle.semantics.specs.Machines.{IsGate};
ghost use Rattle.semantics.specs.Moves.{CanMove, Rests, Rest};

use crate::evaluation::evaluate;
use crate::lines::Lines;
use crate::records::events_of;
use crate::taking::take;
use events::record::EventRecord;
use netlist::row::GateRow;
use occurrences::Occurrences;
use queue::{NO_KEY, PLACES, Queue};
use values::system::ValueSystem;

// Whether a gate's front can move: it is below its goal, and there is room for the change that may come next.
fn can_move<V: ValueSystem>(
    lines: &Lines,
    store: &[EventRecord<V>],
    line: u32,
    row: &GateRow,
) -> bool
    requires a_gate { IsGate (topology (panel lines.now).circuit) line }
    requires its_row { row.now.gate ≡ gate_of_line (panel lines.now).circuit line }
    requires its_progress { row.now.progress ≡ (panel lines.now).progress line }
    requires holds { Holds (panel lines.now) store.now }
    ensures moves { (a : Account V.Sense) → Stands V.meaning V.system (panel lines.now) store.now a → result ≡ true → CanMove (machine_of V.system (panel lines.now)) a line }
    ensures rests { (a : Account V.Sense) → Stands V.meaning V.system (panel lines.now) store.now a → result ≡ false → Rests (machine_of V.system (panel lines.now)) a line }
{
    let goal = lines.goal(row);
    let front = row.progress.tick;
    if front >= goal {
        return false;
    }
    if lines.stride - row.progress.kept > 1 {
        return true;
    }
    let next = evaluate(lines, store, row, front, goal);
    let last = events_of(lines, store, line).last();
    next.value.same(last.value)
}

// The key of a line in a queue: its gate's front, where that can move.
fn key<V: ValueSystem>(lines: &Lines, store: &[EventRecord<V>], line: u32) -> u32
    requires { Holds (panel lines.now) store.now }
    ensures { (a : Account V.Sense) → Stands V.meaning V.system (panel lines.now) store.now a → Keyed (machine_of V.system (panel lines.now)) a line result }
{
    match lines.gate(line) {
        Some(row) if can_move(lines, store, line, &row) => row.progress.tick,
        _ => NO_KEY,
    }
}

// The queue of all lines.
fn queue_of<V: ValueSystem>(lines: &Lines, store: &[EventRecord<V>]) -> Queue
    requires { Holds (panel lines.now) store.now }
    ensures { (a : Account V.Sense) → Stands V.meaning V.system (panel lines.now) store.now a → Queued (machine_of V.system (panel lines.now)) a result }
{
    let mut keys = [NO_KEY; PLACES];
    for place in 0..lines.netlist.lines() {
        keys[place] = key(lines, store, place as u32 + 1);
    }
    Queue::new(keys)
}

// Whether no front can move.
pub(crate) fn at_rest<V: ValueSystem>(lines: &Lines, store: &[EventRecord<V>]) -> bool
    requires { Holds (panel lines.now) store.now }
    ensures { (a : Account V.Sense) → Stands V.meaning V.system (panel lines.now) store.now a → Decides result (Rest (machine_of V.system (panel lines.now)) a) }
{
    queue_of(lines, store).first().is_none()
}

// Sets the keys of the gates that read a line at one place of those that they read.
fn requeue_at<V: ValueSystem>(
    queue: &mut Queue,
    lines: &Lines,
    store: &[EventRecord<V>],
    readers: &Occurrences,
    line: u32,
)
    requires holds { Holds (panel lines.now) store.now }
    requires numbered { (0 < line) × (line ≤ 1024) }
    ensures long { length queue.new ≡ length queue.old }
    ensures keeps { (a : Account V.Sense) → Stands V.meaning V.system (panel lines.now) store.now a → KeysStay (machine_of V.system (panel lines.now)) a queue.old queue.new }
    ensures sets { (a : Account V.Sense) → Stands V.meaning V.system (panel lines.now) store.now a → KeyedAt (machine_of V.system (panel lines.now)) a readers.now line queue.new }
{
    let mut next = readers.last(line);
    while let Some(place) = next {
        queue.set(place, key(lines, store, place as u32 + 1));
        next = readers.before(place);
    }
}

// Sets the keys of a line that has come further and of the gates that read it.
fn requeue<V: ValueSystem>(queue: &mut Queue, lines: &Lines, store: &[EventRecord<V>], line: u32)
    requires holds { Holds (panel lines.now) store.now }
    requires numbered { (0 < line) × (line ≤ 1024) }
    ensures { (a : Account V.Sense) → Stands V.meaning V.system (panel lines.now) store.now a → QueuedBut (machine_of V.system (panel lines.now)) a line queue.old → Queued (machine_of V.system (panel lines.now)) a queue.new }
{
    queue.set(line as usize - 1, key(lines, store, line));
    for readers in &lines.readers {
        requeue_at(queue, lines, store, readers, line);
    }
}

// How a run ended: at rest, where no front can move, or with more to take.
#[derive(Clone, Copy, PartialEq, Eq, Debug)]
pub enum Ending {
    Rest,
    More,
}

// How many takes a run made, and how it ended.
#[derive(Clone, Copy, PartialEq, Eq, Debug)]
pub struct Ran {
    pub takes: u32,
    pub ending: Ending,
}

// Takes gates, each time the one of the smallest front that can move, and of those the smallest line, until so many takes are
// made or no front can move. After a take only that gate and those that read its line are looked at again.
pub(crate) fn run<V: ValueSystem>(lines: &mut Lines, store: &mut [EventRecord<V>], most: u32) -> Ran
    requires { Holds (panel lines.old) store.old }
    ensures keeps { Keeps (panel lines.old) (panel lines.new) store.old store.new }
    ensures answers { (a : Account V.Sense) → Stands V.meaning V.system (panel lines.old) store.old a → (b : Account V.Sense) × Run (machine_of V.system (panel lines.old)) most a b result.takes (ending_of result.ending) × Stands V.meaning V.system (panel lines.new) store.new b }
    ensures rests { ending_of result.ending ≡ Logs.Ending.rest → (a : Account V.Sense) → Stands V.meaning V.system (panel lines.old) store.old a → (b : Account V.Sense) → Stands V.meaning V.system (panel lines.new) store.new b → Rest (machine_of V.system (panel lines.new)) b }
{
    let mut queue = queue_of(lines, store);
    let mut takes = 0;
    while let Some(place) = queue.first() {
        if takes == most {
            return Ran {
                takes,
                ending: Ending::More,
            };
        }
        let line = place as u32 + 1;
        let _settled = take(lines, store, line);
        requeue(&mut queue, lines, store, line);
        takes += 1;
    }
    Ran {
        takes,
        ending: Ending::Rest,
    }
}

// Takes gates, each time the first, until no front can move, and answers how many takes that took. No front can move u32::MAX
// times, so of all the runs no more than there are gates end with more to take.
pub(crate) fn run_to_rest<V: ValueSystem>(lines: &mut Lines, store: &mut [EventRecord<V>]) -> u64
    requires { Holds (panel lines.old) store.old }
    ensures keeps { Keeps (panel lines.old) (panel lines.new) store.old store.new }
    ensures answers { (a : Account V.Sense) → Stands V.meaning V.system (panel lines.old) store.old a → (b : Account V.Sense) × Run (machine_of V.system (panel lines.old)) result a b result Logs.Ending.rest × Stands V.meaning V.system (panel lines.new) store.new b }
    ensures rests { (a : Account V.Sense) → Stands V.meaning V.system (panel lines.old) store.old a → (b : Account V.Sense) → Stands V.meaning V.system (panel lines.new) store.new b → Rest (machine_of V.system (panel lines.new)) b }
{
    let gates = lines.netlist.gates();
    let mut takes = 0;
    for runs in 0..gates + 1 {
        let ran = run(lines, store, u32::MAX);
        takes += ran.takes as u64;
        if let Ending::Rest = ran.ending {
            return takes;
        }
    }
    takes
}
