// A circuit in the making, with each addition tested.
use crate::circuit::{Circuit, Function, Gate};
use crate::refusal::Refusal;
use crate::walks::Walks;
use std::alloc::{AllocError, Global};

const MOST_INPUTS: usize = 256;

const MOST_GATES: usize = 768;

const MOST_OUTPUTS: usize = 256;

const MOST_DELAY: u32 = 65_535;

// Nothing is added to a dead draft, which was opened outside the limits.
#[derive(Drop)]
pub struct Draft {
    dead: bool,
    gates: usize,
    outputs: usize,
    circuit: Circuit,
}

impl Draft {
    pub fn new(alloc: Global, inputs: usize, gates: usize, outputs: usize) -> Draft {
        let mut circuit = Circuit::empty(alloc);
        let dead = Draft::limits(inputs, gates, outputs).is_err();
        if !dead {
            circuit.inputs = inputs;
        }
        Draft {
            dead,
            gates,
            outputs,
            circuit,
        }
    }

    pub fn limits(inputs: usize, gates: usize, outputs: usize) -> Result<(), Refusal> {
        let is_outside = inputs < 1
            || gates < 1
            || outputs < 1
            || MOST_INPUTS < inputs
            || MOST_GATES < gates
            || MOST_OUTPUTS < outputs;
        if is_outside {
            return Err(Refusal::OutOfRange);
        }
        Ok(())
    }

    // Whether a line is one of the netlist, with the gates that are still to come.
    fn has(&self, line: u32) -> bool {
        1 <= line && line as usize <= self.circuit.inputs.saturating_add(self.gates)
    }

    fn lacks_gates(&self) -> bool {
        self.circuit.gates.len() < self.gates
    }

    fn lacks_outputs(&self) -> bool {
        self.circuit.outputs.len() < self.outputs
    }

    fn may_add_gate(&self, function: Function, delay: u32, reads: &[u32]) -> Result<(), Refusal> {
        if self.dead || !self.lacks_gates() {
            return Err(Refusal::OutOfOrder);
        }
        if delay < 1 || MOST_DELAY < delay {
            return Err(Refusal::OutOfRange);
        }
        for line in reads {
            if !self.has(*line) {
                return Err(Refusal::OutOfRange);
            }
        }
        if !function.takes(reads.len()) {
            return Err(Refusal::WrongCount);
        }
        Ok(())
    }

    pub fn add_gate(
        &mut self,
        alloc: Global,
        function: Function,
        delay: u32,
        reads: &[u32],
    ) -> Result<Result<(), Refusal>, AllocError> {
        if let Err(refusal) = self.may_add_gate(function, delay, reads) {
            return Ok(Err(refusal));
        }
        let mut kept = Vec::new(alloc);
        for line in reads {
            kept.push(*line)?;
        }
        self.circuit.gates.push(Gate {
            function,
            delay,
            reads: kept,
        })?;
        Ok(Ok(()))
    }

    pub fn add_output(&mut self, line: u32) -> Result<Result<(), Refusal>, AllocError> {
        if self.dead || self.lacks_gates() || !self.lacks_outputs() {
            return Ok(Err(Refusal::OutOfOrder));
        }
        if !self.has(line) {
            return Ok(Err(Refusal::OutOfRange));
        }
        self.circuit.outputs.push(line)?;
        Ok(Ok(()))
    }

    // The lowest gate line, of those added so far, that no input reaches.
    pub fn unreached(&self, alloc: Global) -> Result<Option<u32>, AllocError> {
        let circuit = &self.circuit;
        let walks = Walks::new(alloc, circuit)?;
        for line in 1..=circuit.lines() {
            if circuit.gate(line).is_some() && !walks.is_reached(circuit, line) {
                return Ok(Some(line));
            }
        }
        Ok(None)
    }

    pub fn judge(&self, alloc: Global) -> Result<Result<(), Refusal>, AllocError> {
        if self.dead || self.lacks_gates() || self.lacks_outputs() {
            return Ok(Err(Refusal::Open));
        }
        match self.unreached(alloc)? {
            Some(_) => Ok(Err(Refusal::Unreached)),
            None => Ok(Ok(())),
        }
    }

    // The circuit so far.
    pub fn finish(self) -> Circuit {
        let Draft { circuit, .. } = self;
        circuit
    }
}
