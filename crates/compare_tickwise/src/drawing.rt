// Gates at random, good ones and bad ones.
use crate::kinds::FUNCTIONS;
use crate::random::Random;
use crate::shape::{Pace, Shape};
use crate::trial::Trial;
use std::alloc::AllocError;
use tickwise::circuit::{Function, Gate};

// How many lines a gate reads now and then that reads far too many.
const FAR_TOO_MANY: [u32; 2] = [257, 260];

fn draw_function(random: &mut Random) -> Function {
    let place = random.below(u32::try_from(FUNCTIONS.len()).unwrap_or(0)) as usize;
    FUNCTIONS.get(place).copied().unwrap_or(Function::Buf)
}

// How many lines a gate reads that is no bad one.
fn fan_in(random: &mut Random, function: Function) -> u32 {
    match function {
        Function::Buf | Function::Not => 1,
        _ if random.one_in(4) => random.within(3, 4),
        _ => 2,
    }
}

// A line that the gate on a line reads: often its own, one beside it, or any.
fn draw_read(random: &mut Random, shape: &Shape, line: u32) -> u32 {
    match random.below(12) {
        0 => line,
        1..3 => line.saturating_add(1).min(shape.lines()),
        3..6 => line.saturating_sub(1).max(1),
        _ => random.within(1, shape.lines()),
    }
}

// A line before a gate's. Where each gate reads such a line, inputs reach all.
fn draw_earlier(random: &mut Random, line: u32) -> u32 {
    random.within(1, line.saturating_sub(1).max(1))
}

// Whether one of the lines that a gate reads is surely before its own: almost always, and always where there are many gates, so
// that not most netlists of many have one that no input reaches.
fn is_earlier(random: &mut Random, pace: Pace) -> bool {
    pace == Pace::Wide || !random.one_in(25)
}

fn draw_reads(
    trial: &mut Trial,
    shape: &Shape,
    line: u32,
    count: u32,
) -> Result<Vec<u32>, AllocError> {
    let earlier = trial.random.below(count);
    let mut reads = Vec::new(trial.alloc);
    for place in 0..count {
        if place == earlier && is_earlier(&mut trial.random, shape.pace) {
            reads.push(draw_earlier(&mut trial.random, line))?;
        } else {
            reads.push(draw_read(&mut trial.random, shape, line))?;
        }
    }
    Ok(reads)
}

// A gate for a line, which may be added.
pub fn draw_gate(trial: &mut Trial, shape: &Shape, line: u32) -> Result<Gate, AllocError> {
    let function = draw_function(&mut trial.random);
    let count = fan_in(&mut trial.random, function);
    Ok(Gate {
        function,
        delay: shape.pace.delay(&mut trial.random),
        reads: draw_reads(trial, shape, line, count)?,
    })
}

// No line of a netlist.
pub fn draw_no_line(random: &mut Random, lines: u32) -> u32 {
    random.pick(0, &[lines.saturating_add(1), u32::MAX])
}

// How many lines a gate may read or not: few mostly.
fn draw_any_count(random: &mut Random) -> u32 {
    if random.one_in(8) {
        random.pick(6, &FAR_TOO_MANY)
    } else {
        random.below(6)
    }
}

// A gate that may be bad in its delay, in a line that it reads, in how many it reads, or in several of these.
pub fn draw_bad_gate(trial: &mut Trial, shape: &Shape, line: u32) -> Result<Gate, AllocError> {
    let mut gate = draw_gate(trial, shape, line)?;
    if trial.random.one_in(2) {
        let count = draw_any_count(&mut trial.random);
        gate.reads = draw_reads(trial, shape, line, count)?;
    }
    if trial.random.one_in(3) {
        gate.delay = trial.random.pick(0, &[65_536, u32::MAX]);
    }
    if trial.random.one_in(3) {
        let _ = gate.reads.pop();
        gate.reads
            .push(draw_no_line(&mut trial.random, shape.lines()))?;
    }
    Ok(gate)
}
