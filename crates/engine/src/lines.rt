// The lines of a session.
ghost use Rattle.std.specs.Prelude.{◌≡◌, length, replicate};
ghost use Rattle.engine.specs.Progresses.{KeptFit};
ghost use Rattle.engine.specs.Readers.{AllRead};
ghost use Rattle.netlist.specs.Closed.{circuit};
ghost use Rattle.netlist.specs.GateRow.{at_start};

use crate::readers::{Readers, readers_of};
use netlist::closed::Netlist;
use netlist::progress::Progress;
use netlist::row::GateRow;

// What a session knows of its lines, apart from their records: the netlist, whose rows tell how far the gates have come,
// how far the inputs have come, the tick from which on changes are kept, how many records each line has, and which gates
// read it.
#[derive(Drop)]
pub(crate) struct Lines {
    pub netlist: Netlist,
    pub inputs: [Progress; 256],
    pub trim: u32,
    pub stride: usize,
    pub readers: Readers,
    ghost table: { length inputs ≡ 256 },
    ghost kept_fit: { KeptFit netlist inputs stride },
    ghost all_read: { AllRead (circuit netlist) readers },
}

// Inputs that have not come further than tick 0.
fn not_moved() -> [Progress; 256]
    ensures { result ≡ replicate 256 at_start }
{
    [Progress { tick: 0, kept: 0 }; 256]
}

impl Lines {
    ghost use Rattle.std.specs.Prelude.{ℕ, ◌-◌, ◌+◌, ◌*◌, ◌<◌, ◌≤◌, ◌≢◌, min, true, Contains, fold, map, Decides, MatchOption, IfSome};
    ghost use Rattle.netlist.specs.Walks.{Looped};
    ghost use Rattle.engine.specs.Lines.{panel, extent};
    ghost use Rattle.engine.specs.Panels.{moved, settled_in, last_tick, IsLineOf};
    ghost use Rattle.semantics.specs.Circuits.{lines, gate_of_line, topology};
    ghost use Rattle.semantics.specs.Machines.{IsInput, IsGate};

    // The lines of a netlist at tick 0, with so many records each.
    pub(crate) fn new(mut netlist: Netlist, stride: usize) -> Lines
        requires { 0 < stride }
        ensures { panel result ≡ record { circuit = circuit netlist; stride = stride; trim = 0; progress = λ n. at_start } }
    {
        netlist.rewind();
        let readers = readers_of(&netlist);
        Lines {
            netlist,
            inputs: not_moved(),
            trim: 0,
            stride,
            readers,
        }
    }

    // Whether there is such a line.
    pub(crate) fn has(&self, line: u32) -> bool
        ensures { Decides result (IsLineOf (panel self.now) line) }
    {
        (1..=self.netlist.lines()).contains(&(line as usize))
    }

    // How far an input has come.
    pub(crate) fn input(&self, line: u32) -> Option<Progress>
        ensures { MatchOption result (IsInput (topology (panel self.now).circuit) line → ⊥) (λ progress. IsInput (topology (panel self.now).circuit) line × (progress ≡ (panel self.now).progress line)) }
    {
        let place = (line as usize).checked_sub(1)?;
        self.inputs[..self.netlist.inputs()].get(place).copied()
    }

    // The row of a gate's line.
    pub(crate) fn gate(&self, line: u32) -> Option<GateRow>
        ensures told { MatchOption result (IsGate (topology (panel self.now).circuit) line → ⊥) (λ row. IsGate (topology (panel self.now).circuit) line × (row.gate ≡ gate_of_line (panel self.now).circuit line) × (row.progress ≡ (panel self.now).progress line)) }
        ensures marked { IfSome result (λ row. (row.looped ≡ true → ∥ Looped (panel self.now).circuit line ∥₁) × (Looped (panel self.now).circuit line → row.looped ≡ true)) }
    {
        self.netlist.row(line)
    }

    // How far a line has come.
    pub(crate) fn progress(&self, line: u32) -> Progress
        requires { IsLineOf (panel self.now) line }
        ensures { result ≡ (panel self.now).progress line }
    {
        match self.netlist.row(line) {
            Some(row) => row.progress,
            None => self.inputs[line as usize - 1],
        }
    }

    // How far a line is settled.
    pub(crate) fn settled(&self, line: u32) -> u32
        requires { IsLineOf (panel self.now) line }
        ensures { result ≡ min (settled_in (panel self.now) line) last_tick }
    {
        match self.netlist.row(line) {
            Some(row) => row.progress.tick.saturating_add(row.delay),
            None => self.progress(line).tick,
        }
    }

    // The goal of a gate, the least settled time of the lines that it reads.
    pub(crate) fn goal(&self, row: &GateRow) -> u32
        requires { (m : ℕ) → Contains row.now.gate.reads m → IsLineOf (panel self.now) m }
        ensures { result ≡ fold min last_tick (map (settled_in (panel self.now)) row.now.gate.reads) }
    {
        let mut goal = u32::MAX;
        for line in row.reads() {
            goal = goal.min(self.settled(*line));
        }
        goal
    }

    // A line that has not come up to a tick, if there is one.
    pub(crate) fn behind(&self, tick: u32) -> Option<u32>
        ensures { MatchOption result ((n : ℕ) → IsLineOf (panel self.now) n → tick ≤ ((panel self.now).progress n).tick) (λ n. IsLineOf (panel self.now) n × (((panel self.now).progress n).tick < tick)) }
    {
        for place in 0..self.netlist.lines() {
            let line = place as u32 + 1;
            if self.progress(line).tick < tick {
                return Some(line);
            }
        }
        None
    }

    // Tells how far a line has come, and nothing of the others.
    pub(crate) fn advance(&mut self, line: u32, progress: Progress)
        requires a_line { IsLineOf (panel self.old) line }
        requires fits { progress.kept < self.old.stride }
        ensures { panel self.new ≡ moved (panel self.old) line progress }
    {
        let place = line as usize - 1;
        if place < self.netlist.inputs() {
            self.inputs[place] = progress;
        } else {
            self.netlist.advance(line, progress);
        }
    }

    // Where the records of a line begin.
    pub(crate) fn place(&self, line: u32) -> usize
        requires a_line { IsLineOf (panel self.now) line }
        requires few { extent (panel self.now) ≤ 18446744073709551615 }
        ensures begins { result ≡ (line - 1) * self.now.stride }
        ensures ends { result + self.now.stride ≤ extent (panel self.now) }
    {
        (line as usize - 1) * self.stride
    }
}
