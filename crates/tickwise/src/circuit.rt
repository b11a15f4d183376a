// A circuit: inputs, and the gates whose lines come after theirs.
use crate::value::Value;
use std::alloc::Global;

#[derive(Clone, Copy, PartialEq, Eq, Debug)]
pub enum Function {
    Buf,
    Not,
    And,
    Or,
    Xor,
    Nand,
    Nor,
    Xnor,
}

impl Function {
    // Whether a gate may read so many lines.
    pub fn takes(self, count: usize) -> bool {
        match self {
            Function::Buf | Function::Not => count == 1,
            _ => 2 <= count && count <= 4,
        }
    }

    // What the operands so far come to with one more.
    pub(crate) fn fold<V: Value>(self, folded: Option<V>, next: V) -> V {
        match (folded, self) {
            (None, _) => next,
            (Some(folded), Function::And | Function::Nand) => folded.and(next),
            (Some(folded), Function::Or | Function::Nor) => folded.or(next),
            (Some(folded), Function::Xor | Function::Xnor) => folded.xor(next),
            (Some(folded), Function::Buf | Function::Not) => folded,
        }
    }

    // What a gate shows of what its operands come to.
    pub(crate) fn finish<V: Value>(self, folded: V) -> V {
        match self {
            Function::Not | Function::Nand | Function::Nor | Function::Xnor => folded.not(),
            Function::Buf | Function::And | Function::Or | Function::Xor => folded,
        }
    }
}

#[derive(Debug, Drop)]
pub struct Gate {
    pub function: Function,
    pub delay: u32,
    pub reads: Vec<u32>,
}

#[derive(Debug, Drop)]
pub struct Circuit {
    pub inputs: usize,
    pub gates: Vec<Gate>,
    pub outputs: Vec<u32>,
}

// The place of a line in a table of all lines.
pub(crate) fn place(line: u32) -> usize {
    (line as usize).wrapping_sub(1)
}

impl Circuit {
    // The circuit without lines.
    pub fn empty(alloc: Global) -> Circuit {
        Circuit {
            inputs: 0,
            gates: Vec::new(alloc),
            outputs: Vec::new(alloc),
        }
    }

    // How many lines there are, which is also the last line.
    pub fn lines(&self) -> u32 {
        u32::try_from(self.inputs.saturating_add(self.gates.len())).unwrap_or(u32::MAX)
    }

    pub fn has(&self, line: u32) -> bool {
        1 <= line && line <= self.lines()
    }

    pub fn is_input(&self, line: u32) -> bool {
        self.has(line) && line as usize <= self.inputs
    }

    // The gate that drives a line.
    pub fn gate(&self, line: u32) -> Option<&Gate> {
        self.gates.get(place(line).wrapping_sub(self.inputs))
    }
}
