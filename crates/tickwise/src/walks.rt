// Which lines walks through gates lead to.
use crate::circuit::{Circuit, place};
use std::alloc::{AllocError, Global};

// For each line, the lines from which a walk leads to it.
#[derive(Drop)]
pub struct Walks {
    from: Vec<Vec<bool>>,
}

impl Walks {
    // No walk yet.
    fn none(alloc: Global, lines: u32) -> Result<Walks, AllocError> {
        let mut from = Vec::new(alloc);
        for _line in 0..lines {
            from.push(vec![in alloc; false; lines as usize]?)?;
        }
        Ok(Walks { from })
    }

    // All walks: those through one gate, and those that lead on, until no more are found.
    pub fn new(alloc: Global, circuit: &Circuit) -> Result<Walks, AllocError> {
        let mut walks = Walks::none(alloc, circuit.lines())?;
        for _round in 0..=circuit.lines() {
            if !walks.extend(circuit) {
                break;
            }
        }
        Ok(walks)
    }

    // Whether a walk leads from a line to another.
    pub fn lead(&self, from: u32, to: u32) -> bool {
        self.from
            .get(place(to))
            .and_then(|from_lines| from_lines.get(place(from)))
            .copied()
            .unwrap_or(false)
    }

    // Adds the walks to each gate that are known of the lines that it reads. Tells whether any is new.
    fn extend(&mut self, circuit: &Circuit) -> bool {
        let mut is_new = false;
        for line in 1..=circuit.lines() {
            is_new |= self.extend_to(circuit, line);
        }
        is_new
    }

    fn extend_to(&mut self, circuit: &Circuit, line: u32) -> bool {
        let mut is_new = false;
        for from in 1..=circuit.lines() {
            if !self.lead(from, line) && self.lead_to_reads(circuit, from, line) {
                self.mark(from, line);
                is_new = true;
            }
        }
        is_new
    }

    // Whether a line is read by a gate, or a walk leads to one that is.
    fn lead_to_reads(&self, circuit: &Circuit, from: u32, line: u32) -> bool {
        let Some(gate) = circuit.gate(line) else {
            return false;
        };
        for read in &gate.reads {
            if *read == from || self.lead(from, *read) {
                return true;
            }
        }
        false
    }

    fn mark(&mut self, from: u32, to: u32) {
        if let Some(from_lines) = self.from.get_mut(place(to)) {
            if let Some(leads) = from_lines.get_mut(place(from)) {
                *leads = true;
            }
        }
    }

    pub fn is_looped(&self, line: u32) -> bool {
        self.lead(line, line)
    }

    // Whether some input reaches a line.
    pub fn is_reached(&self, circuit: &Circuit, line: u32) -> bool {
        let mut is_reached = false;
        for input in 1..=circuit.lines() {
            is_reached |= circuit.is_input(input) && self.lead(input, line);
        }
        is_reached
    }
}
