// Opening a draft.
ghost use Rattle.std.specs.Prelude.{◌≡◌, suc, ◌+◌, [], length};
ghost use Rattle.netlist.specs.Drafts.{sheet, lines, opened, limits_answer, NoRowFilled};
ghost use Rattle.netlist.specs.Refusals.{answer};
ghost use Rattle.netlist.specs.Rows.{HasPlaces};

use super::Draft;
use crate::refusal::Refusal;
use crate::row::GateRow;
use crate::size::Size;

impl Draft {
    // How many inputs, gates and outputs a netlist may have at most.
    pub const MOST_INPUTS: usize = 256;

    pub const MOST_GATES: usize = 768;

    pub const MOST_OUTPUTS: usize = 256;

    // Tests the limits of a draft before it is opened.
    pub fn limits(size: Size) -> Result<(), Refusal>
        ensures answers { answer result ≡ limits_answer size.inputs size.gates size.outputs }
    {
        let inputs_fit = (1..=Self::MOST_INPUTS).contains(&size.inputs);
        let gates_fit = (1..=Self::MOST_GATES).contains(&size.gates);
        let outputs_fit = (1..=Self::MOST_OUTPUTS).contains(&size.outputs);
        if inputs_fit && gates_fit && outputs_fit {
            Ok(())
        } else {
            Err(Refusal::Range)
        }
    }

    // Opens a draft, which never fails; outside the limits it is a dead one.
    pub fn new(size: Size) -> Draft
        ensures opens { sheet result ≡ opened size.inputs size.gates size.outputs }
        ensures rows_empty { NoRowFilled result }
    {
        match Draft::limits(size) {
            Ok(()) => Draft::blank(size),
            Err(_) => Draft::blank(Size::default()),
        }
    }

    // A draft with all its rows empty.
    fn blank(size: Size) -> Draft
        requires { HasPlaces size }
        ensures nothing_filled { sheet result ≡ record { gates = size.gates; outputs = size.outputs; circuit = record { inputs = size.inputs; gates = []; outputs = [] } } }
        ensures rows_empty { NoRowFilled result }
    {
        Draft {
            size,
            drawn: 0,
            named: 0,
            rows: [GateRow::EMPTY; 768],
            ends: [0; 256],
        }
    }

    pub fn inputs(&self) -> usize
        ensures { result ≡ (sheet self.now).circuit.inputs }
    {
        self.size.inputs
    }

    // How many lines it has, those of gates still to come too.
    pub fn lines(&self) -> usize
        ensures { result ≡ lines (sheet self.now) }
    {
        self.size.inputs + self.size.gates
    }

    // The line that the next gate drives.
    pub fn next_line(&self) -> usize
        ensures { result ≡ suc ((sheet self.now).circuit.inputs + length (sheet self.now).circuit.gates) }
    {
        self.size.inputs + self.drawn + 1
    }
}
