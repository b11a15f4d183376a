// How far a draft is filled.
use crate::answer::{Answer, Asked};
use crate::stop::{Stop, compare};
use netlist::draft::Draft;
use netlist::size::Size;

// What a draft was opened for, which is nothing for a dead one, and how many gates and outputs were accepted.
#[derive(Clone, Copy, Debug)]
pub struct Filled {
    size: Size,
    gates: usize,
    outputs: usize,
}

impl Filled {
    pub fn new(size: Size, is_within: bool) -> Filled {
        Filled {
            size: if is_within { size } else { Size::default() },
            gates: 0,
            outputs: 0,
        }
    }

    pub fn note_gate(&mut self) {
        self.gates = self.gates.saturating_add(1);
    }

    pub fn note_output(&mut self) {
        self.outputs = self.outputs.saturating_add(1);
    }

    // Gates come first, as many as the draft was opened for.
    fn takes_gate(&self) -> bool {
        self.gates < self.size.gates
    }

    // Outputs come after all gates.
    fn takes_output(&self) -> bool {
        self.gates == self.size.gates && self.outputs < self.size.outputs
    }

    // A dead draft, which was opened for nothing, is never complete.
    fn is_complete(&self) -> bool {
        self.size != Size::default() && !self.takes_gate() && self.outputs == self.size.outputs
    }

    fn compare_lines(&self, draft: &Draft) -> Result<(), Stop> {
        let inputs = self.size.inputs;
        compare(
            Asked::Inputs,
            Answer::Count(draft.inputs()),
            Answer::Count(inputs),
        )?;
        let lines = inputs.saturating_add(self.size.gates);
        compare(
            Asked::Lines,
            Answer::Count(draft.lines()),
            Answer::Count(lines),
        )?;
        let next = inputs.saturating_add(self.gates).saturating_add(1);
        compare(
            Asked::NextLine,
            Answer::Count(draft.next_line()),
            Answer::Count(next),
        )
    }

    // Compares what a draft tells of how far it is filled.
    pub fn compare(&self, draft: &Draft) -> Result<(), Stop> {
        self.compare_lines(draft)?;
        compare(
            Asked::TakesGate,
            Answer::Truth(draft.takes_gate()),
            Answer::Truth(self.takes_gate()),
        )?;
        compare(
            Asked::TakesOutput,
            Answer::Truth(draft.takes_output()),
            Answer::Truth(self.takes_output()),
        )?;
        compare(
            Asked::IsComplete,
            Answer::Truth(draft.is_complete()),
            Answer::Truth(self.is_complete()),
        )
    }
}
