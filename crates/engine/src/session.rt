// Sessions: closed netlists that are simulated.
ghost use Rattle.std.specs.Prelude.{◌≡◌, length};
ghost use Rattle.engine.specs.Lines.{panel, Holds};

pub mod comparing;

pub use crate::asking::LineState;
use crate::lines::Lines;
use crate::making::{begin_all, settle_all};
pub use crate::running::{Ending, Ran};
use crate::{asking, giving, running, taking, trimming};
use events::record::EventRecord;
use netlist::closed::Netlist;
use netlist::refusal::Refusal;
use values::system::ValueSystem;

// A netlist that is simulated in a lent store: how far its lines have come, and their records.
#[derive(Drop)]
pub struct Session<'a, V> {
    lines: Lines,
    store: &'a mut [EventRecord<V>],
    ghost fits: { Holds (panel lines) store.now },
}

impl<'a, V: ValueSystem> Session<'a, V> {
    ghost use Rattle.std.specs.Prelude.{ℕ, true, OnErr, Err, Result, Decides};
    ghost use Rattle.engine.specs.Answers.{numbered, answered, stated, ending_of, Making, Feeding, Holding, Taking, Trimming, Valued, Eventful, Stated};
    ghost use Rattle.engine.specs.Sessions.{Made, Lent, netlist_of, HasNoLines, machine_in, StandsFor, KeepsItsOwn, SettledToDistances};
    ghost use Rattle.semantics.specs.Accounts.{Account};
    ghost use Rattle.semantics.specs.Logs as Logs;
    ghost use Rattle.semantics.specs.Logs.{Run};
    ghost use Rattle.semantics.specs.Moves.{Rest};
    ghost use Rattle.engine.specs.Stores.{seen};
    ghost use Rattle.netlist.specs.Closed.{circuit};

    // Whether a session can be made.
    pub fn check(netlist: &Netlist, store: &[EventRecord<V>], starts: &[V]) -> Result<(), Refusal>
        ensures answers { Making (circuit netlist.now) (length store.now) (length starts.now) (numbered result) }
    {
        let lines = netlist.lines();
        if lines == 0 {
            return Err(Refusal::Open);
        }
        if store.len() < 2 * lines {
            return Err(Refusal::Store);
        }
        if starts.len() != netlist.inputs() {
            return Err(Refusal::Starts);
        }
        Ok(())
    }

    // A session of a netlist, in a lent store, whose inputs begin with these values. Where it cannot be made, nothing is
    // written, and the session has no lines.
    pub fn make(netlist: Netlist, store: &'a mut [EventRecord<V>], starts: &[V]) -> Session<'a, V>
        ensures lends_this_store { Lent store.entry result }
        ensures makes { (r : Result Unit ℕ) × Making (circuit netlist) (length store.old) (length starts.now) r × Made V.meaning V.system V.START (circuit netlist) starts.now store.old result r }
    {
        let Ok(()) = Session::check(&netlist, store, starts) else {
            return Session {
                lines: Lines::new(Netlist::empty(), 1),
                store,
            };
        };
        let stride = store.len() / netlist.lines();
        let lines = Lines::new(netlist, stride);
        begin_all(&lines, store, starts);
        settle_all(&lines, store);
        Session { lines, store }
    }

    // An input keeps its last value up to a tick, where a new value begins.
    pub fn feed(&mut self, line: u32, tick: u32, value: V) -> Result<(), Refusal>
        ensures keeps { KeepsItsOwn self.old self.new }
        ensures refused_alters_nothing { OnErr result (self.new ≡ self.old) }
        ensures without_lines { HasNoLines self.old → numbered result ≡ Err 12 }
        ensures answers { (a : Account V.Sense) → StandsFor V.meaning V.system self.old a → (b : Account V.Sense) × Feeding (machine_in V.system self.old) a line tick (V.meaning value) (numbered result) b × StandsFor V.meaning V.system self.new b }
    {
        giving::feed(&mut self.lines, self.store, line, tick, value)
    }

    // An input keeps its last value up to a tick.
    pub fn hold(&mut self, line: u32, tick: u32) -> Result<(), Refusal>
        ensures keeps { KeepsItsOwn self.old self.new }
        ensures refused_alters_nothing { OnErr result (self.new ≡ self.old) }
        ensures without_lines { HasNoLines self.old → numbered result ≡ Err 12 }
        ensures answers { (a : Account V.Sense) → StandsFor V.meaning V.system self.old a → (b : Account V.Sense) × Holding (machine_in V.system self.old) a line tick (numbered result) b × StandsFor V.meaning V.system self.new b }
    {
        giving::hold(&mut self.lines, self.store, line, tick)
    }

    // Takes a gate: its front moves on towards its goal, and no other front does. Answers how far its line is settled.
    pub fn take(&mut self, line: u32) -> Result<u32, Refusal>
        ensures keeps { KeepsItsOwn self.old self.new }
        ensures refused_alters_nothing { OnErr result (self.new ≡ self.old) }
        ensures without_lines { HasNoLines self.old → numbered result ≡ Err 12 }
        ensures answers { (a : Account V.Sense) → StandsFor V.meaning V.system self.old a → (b : Account V.Sense) × Taking (machine_in V.system self.old) a line (numbered result) b × StandsFor V.meaning V.system self.new b }
    {
        taking::take(&mut self.lines, self.store, line)
    }

    // Takes gates, each time the first, until so many takes are made or no front can move.
    pub fn run(&mut self, most: u32) -> Ran
        ensures keeps { KeepsItsOwn self.old self.new }
        ensures without_lines { HasNoLines self.old → (result.takes ≡ 0) × (ending_of result.ending ≡ Logs.Ending.rest) }
        ensures answers { (a : Account V.Sense) → StandsFor V.meaning V.system self.old a → (b : Account V.Sense) × Run (machine_in V.system self.old) most a b result.takes (ending_of result.ending) × StandsFor V.meaning V.system self.new b }
        ensures rests { ending_of result.ending ≡ Logs.Ending.rest → (a : Account V.Sense) → StandsFor V.meaning V.system self.old a → (b : Account V.Sense) → StandsFor V.meaning V.system self.new b → Rest (machine_in V.system self.new) b }
        ensures settled_to_distances { ending_of result.ending ≡ Logs.Ending.rest → (a : Account V.Sense) → StandsFor V.meaning V.system self.old a → (b : Account V.Sense) → StandsFor V.meaning V.system self.new b → SettledToDistances (machine_in V.system self.new) b }
    {
        running::run(&mut self.lines, self.store, most)
    }

    // Runs to rest, and answers how many takes that took.
    pub fn run_to_rest(&mut self) -> u64
        ensures keeps { KeepsItsOwn self.old self.new }
        ensures without_lines { HasNoLines self.old → result ≡ 0 }
        ensures answers { (a : Account V.Sense) → StandsFor V.meaning V.system self.old a → (b : Account V.Sense) × Run (machine_in V.system self.old) result a b result Logs.Ending.rest × StandsFor V.meaning V.system self.new b }
        ensures rests { (a : Account V.Sense) → StandsFor V.meaning V.system self.old a → (b : Account V.Sense) → StandsFor V.meaning V.system self.new b → Rest (machine_in V.system self.new) b }
        ensures settled_to_distances { (a : Account V.Sense) → StandsFor V.meaning V.system self.old a → (b : Account V.Sense) → StandsFor V.meaning V.system self.new b → SettledToDistances (machine_in V.system self.new) b }
    {
        running::run_to_rest(&mut self.lines, self.store)
    }

    // Drops the changes below a tick, which becomes the trim tick.
    pub fn trim(&mut self, tick: u32) -> Result<(), Refusal>
        ensures keeps { KeepsItsOwn self.old self.new }
        ensures refused_alters_nothing { OnErr result (self.new ≡ self.old) }
        ensures without_lines { HasNoLines self.old → numbered result ≡ Err 15 }
        ensures answers { (a : Account V.Sense) → StandsFor V.meaning V.system self.old a → (b : Account V.Sense) × Trimming (machine_in V.system self.old) a tick (numbered result) b × StandsFor V.meaning V.system self.new b }
    {
        trimming::trim(&mut self.lines, self.store, tick)
    }

    // The value of a line at a tick.
    pub fn value(&self, line: u32, tick: u32) -> Result<V, Refusal>
        ensures without_lines { HasNoLines self.now → answered V.meaning result ≡ Err 12 }
        ensures answers { (a : Account V.Sense) → StandsFor V.meaning V.system self.now a → Valued (machine_in V.system self.now) a line tick (answered V.meaning result) }
    {
        asking::value(&self.lines, &*self.store, line, tick)
    }

    // A kept change of a line, counted from 0.
    pub fn event(&self, line: u32, k: usize) -> Result<EventRecord<V>, Refusal>
        ensures without_lines { HasNoLines self.now → answered (seen V.meaning) result ≡ Err 12 }
        ensures answers { (a : Account V.Sense) → StandsFor V.meaning V.system self.now a → Eventful (machine_in V.system self.now) a line k (answered (seen V.meaning) result) }
    {
        asking::event(&self.lines, &*self.store, line, k)
    }

    // How far a line is settled, and how many of its changes are kept.
    pub fn state(&self, line: u32) -> Result<LineState, Refusal>
        ensures without_lines { HasNoLines self.now → answered stated result ≡ Err 12 }
        ensures answers { (a : Account V.Sense) → StandsFor V.meaning V.system self.now a → Stated (machine_in V.system self.now) a line (answered stated result) }
    {
        asking::state(&self.lines, &*self.store, line)
    }

    // Whether the session is at rest, where no front can move. There every line is settled exactly to its distance.
    pub fn at_rest(&self) -> bool
        ensures decides_rest { (a : Account V.Sense) → StandsFor V.meaning V.system self.now a → Decides result (Rest (machine_in V.system self.now) a) }
        ensures settled_to_distances { result ≡ true → (a : Account V.Sense) → StandsFor V.meaning V.system self.now a → SettledToDistances (machine_in V.system self.now) a }
    {
        running::at_rest(&self.lines, &*self.store)
    }

    // The netlist that is simulated.
    pub fn netlist(&self) -> &Netlist
        ensures is_its_netlist { result.now ≡ netlist_of self.now }
    {
        &self.lines.netlist
    }

    // How many changes of each line are kept at most.
    pub fn room(&self) -> usize
        ensures is_its_room { result ≡ (machine_in V.system self.now).room }
    {
        self.lines.stride.saturating_sub(1)
    }

    // The trim tick, from which on changes are kept.
    pub fn trim_tick(&self) -> u32
        ensures is_its_trim_tick { (a : Account V.Sense) → StandsFor V.meaning V.system self.now a → result ≡ a.trim }
    {
        self.lines.trim
    }
}
