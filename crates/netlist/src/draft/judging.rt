// Judging a draft: whether it is complete, and whether every gate is reached by some input.
ghost use Rattle.std.specs.Prelude.{◌≡◌};
ghost use Rattle.netlist.specs.Drafts.{sheet, complete};
ghost use Rattle.netlist.specs.Judging.{Judged, FreeGate};
ghost use Rattle.netlist.specs.Refusals.{answer};

use super::Draft;
use super::search::LineRange;
use crate::refusal::Refusal;

impl Draft {
    // Whether all gates and outputs stand, and every gate is reached by some input.
    pub fn judge(&self) -> Result<(), Refusal>
        ensures { Judged (sheet self.now) (answer result) }
    {
        if !self.is_complete() {
            return Err(Refusal::Open);
        }
        match self.unreached() {
            Some(_) => Err(Refusal::Free),
            None => Ok(()),
        }
    }

    pub fn is_complete(&self) -> bool
        ensures { result ≡ complete (sheet self.now) }
    {
        0 < self.size.gates && self.drawn == self.size.gates && self.named == self.size.outputs
    }

    // The lowest gate line, of those drawn so far, that no input reaches. A loop, since the closure of a `find` would
    // need the clauses of `leads` again.
    pub fn unreached(&self) -> Option<u32>
        ensures { FreeGate (sheet self.now).circuit result }
    {
        let inputs = LineRange {
            first: 1,
            last: self.size.inputs,
        };
        for line in self.size.inputs + 1..self.next_line() {
            let line = line as u32;
            if !self.leads(inputs, line) {
                return Some(line);
            }
        }
        None
    }
}
