// The least lengths of paths to lines.
use crate::circuit::{Circuit, Gate, place};
use std::alloc::{AllocError, Global};

// The least of the lengths of the paths to the lines that a gate reads, of those to which one leads.
fn least_read(gate: &Gate, lengths: &[Option<u32>]) -> Option<u32> {
    let mut least = None;
    for line in &gate.reads {
        least = less(least, lengths.get(place(*line)).copied().flatten());
    }
    least
}

// The less of two lengths, of those that there are.
pub(crate) fn less(left: Option<u32>, right: Option<u32>) -> Option<u32> {
    match (left, right) {
        (Some(left), Some(right)) => Some(left.min(right)),
        (Some(length), None) | (None, Some(length)) => Some(length),
        (None, None) => None,
    }
}

// Takes a line's length down to what leads through its gate. Tells whether it got less.
fn relax(circuit: &Circuit, lengths: &mut Vec<Option<u32>>, line: u32) -> bool {
    let Some(gate) = circuit.gate(line) else {
        return false;
    };
    let through = least_read(gate, lengths).map(|length| length.saturating_add(gate.delay));
    let Some(length) = lengths.get_mut(place(line)) else {
        return false;
    };
    let least = less(*length, through);
    let is_less = least != *length;
    *length = least;
    is_less
}

fn relax_all(circuit: &Circuit, lengths: &mut Vec<Option<u32>>) -> bool {
    let mut is_less = false;
    for line in 1..=circuit.lines() {
        is_less |= relax(circuit, lengths, line);
    }
    is_less
}

// The least length of the paths to each line, where those that begin at a line begin with a length. They are taken down
// until none gets less; no least path comes to a line twice.
pub(crate) fn least_lengths(circuit: &Circuit, begins: Vec<Option<u32>>) -> Vec<Option<u32>> {
    let mut lengths = begins;
    for _round in 0..=circuit.lines() {
        if !relax_all(circuit, &mut lengths) {
            break;
        }
    }
    lengths
}
