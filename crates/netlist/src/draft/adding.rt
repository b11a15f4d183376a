// Adding gates and outputs to a draft.
ghost use Rattle.std.specs.Prelude.{◌≡◌, ◌+◌, ◌<◌, true, ◌≢◌};
ghost use Rattle.std.specs.Int.{is_in_range};
ghost use Rattle.netlist.specs.Drafts.{sheet, takes_gate, takes_output, gate_answer, output_answer, with_gate, with_output};
ghost use Rattle.netlist.specs.Gates.{on_lines, legal};
ghost use Rattle.netlist.specs.Refusals.{answer};

use super::Draft;
use crate::kind::Kind;
use crate::refusal::Refusal;
use crate::row::GateRow;

// Whether each of them is a line of a netlist with so many lines.
fn on_lines(numbers: &[u32], lines: usize) -> bool
    ensures { result ≡ on_lines lines numbers.now }
{
    numbers.iter().all(|n| (1..=lines).contains(&(*n as usize)))
}

impl Draft {
    pub const MOST_DELAY: usize = 65_535;

    // Adds the gate of the next line. A refused gate alters nothing. It takes the parts of a row, since two of its tests
    // come before that of their number, and so before a row can be made.
    pub fn add_gate(&mut self, kind: Kind, delay: u32, lines: &[u32]) -> Result<(), Refusal>
        ensures answers { answer result ≡ gate_answer (sheet self.old) (record { kind = kind; delay = delay; reads = lines.now }) }
        ensures adds { answer result ≡ 0 → sheet self.new ≡ with_gate (sheet self.old) (record { kind = kind; delay = delay; reads = lines.now }) }
        ensures refused_alters_nothing { (answer result ≢ 0) → self.new ≡ self.old }
    {
        if !self.takes_gate() {
            return Err(Refusal::Letter);
        }
        if !(1..=Self::MOST_DELAY).contains(&(delay as usize)) {
            return Err(Refusal::Range);
        }
        if !on_lines(lines, self.lines()) {
            return Err(Refusal::Range);
        }
        let row = GateRow::new(kind, delay, lines)?;
        self.push_row(row);
        Ok(())
    }

    // Whether a gate may come next: gates come in line order, as many as the draft was opened for.
    pub fn takes_gate(&self) -> bool
        ensures { result ≡ takes_gate (sheet self.now) }
    {
        self.drawn < self.size.gates
    }

    // Fills the next row.
    fn push_row(&mut self, row: GateRow)
        requires room { self.old.drawn < self.old.size.gates }
        requires lawful { legal (self.old.size.inputs + self.old.size.gates) row.gate ≡ true }
        ensures { sheet self.new ≡ with_gate (sheet self.old) row.gate }
    {
        let at = self.drawn;
        self.rows[at] = row;
        self.drawn = at + 1;
    }

    // Adds the next output, which names any line. A refused output alters nothing.
    pub fn add_output(&mut self, line: u32) -> Result<(), Refusal>
        ensures answers { answer result ≡ output_answer (sheet self.old) line }
        ensures adds { answer result ≡ 0 → sheet self.new ≡ with_output (sheet self.old) line }
        ensures refused_alters_nothing { (answer result ≢ 0) → self.new ≡ self.old }
    {
        if !self.takes_output() {
            return Err(Refusal::Letter);
        }
        if !(1..=self.lines()).contains(&(line as usize)) {
            return Err(Refusal::Range);
        }
        self.push_output(line);
        Ok(())
    }

    // Fills the next place of the outputs.
    fn push_output(&mut self, line: u32)
        requires room { self.old.named < self.old.size.outputs }
        requires gates_first { self.old.drawn ≡ self.old.size.gates }
        requires lawful { is_in_range 1 (self.old.size.inputs + self.old.size.gates) line ≡ true }
        ensures { sheet self.new ≡ with_output (sheet self.old) line }
    {
        let at = self.named;
        self.ends[at] = line;
        self.named = at + 1;
    }

    // Whether an output may come next: outputs come after all gates.
    pub fn takes_output(&self) -> bool
        ensures { result ≡ takes_output (sheet self.now) }
    {
        self.drawn == self.size.gates && self.named < self.size.outputs
    }
}
