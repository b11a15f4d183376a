// A netlist drawn in both simulators, addition by addition.
use crate::answer::{Answer, Asked, done_or_refused};
use crate::call::Name;
use crate::counts::count;
use crate::drawing::{draw_bad_gate, draw_gate, draw_no_line};
use crate::filled::Filled;
use crate::kinds::kind_of;
use crate::shape::Shape;
use crate::stop::{Stop, compare};
use crate::trial::Trial;
use netlist::closed::Netlist;
use netlist::draft::Draft;
use netlist::size::Size;
use std::alloc::Global;
use tickwise::circuit::{Circuit, Gate};

// How many gates or outputs are tried of a draft that was opened outside the limits.
const FEW: usize = 2;

// Both drafts, what was accepted of them, and how many additions were tried.
#[derive(Drop)]
pub struct Drafts {
    engine: Draft,
    tickwise: tickwise::draft::Draft,
    filled: Filled,
    additions: usize,
}

// What both made of a draft: the answer of closing, and the netlist of it.
#[derive(Drop)]
pub struct Closed {
    pub answer: Answer,
    pub netlist: Netlist,
    pub circuit: Circuit,
}

// The greatest numbers that are accepted, the least, and those that are refused beside them.
const INPUTS: [usize; 4] = [256, 1, 0, 257];

const GATES: [usize; 4] = [768, 1, 0, 769];

const OUTPUTS: [usize; 4] = [256, 1, 0, 257];

// Asks for the limits alone.
fn compare_limits(trial: &mut Trial, size: Size) -> Result<Answer, Stop> {
    let Size {
        inputs,
        gates,
        outputs,
    } = size;
    let answer = done_or_refused(Draft::limits(size));
    let expected = tickwise::draft::Draft::limits(inputs, gates, outputs);
    compare(Asked::Limits, answer, done_or_refused(expected))?;
    trial.counts.note(Name::Limits, answer);
    Ok(answer)
}

// Now and then asks for limits at their edges.
pub fn try_edges(trial: &mut Trial) -> Result<(), Stop> {
    if trial.random.one_in(12) {
        let size = Size {
            inputs: trial.random.pick(256, &INPUTS),
            gates: trial.random.pick(768, &GATES),
            outputs: trial.random.pick(256, &OUTPUTS),
        };
        compare_limits(trial, size)?;
    }
    Ok(())
}

impl Drafts {
    // Opens both, and asks for the limits.
    pub fn open(trial: &mut Trial, shape: &Shape) -> Result<Drafts, Stop> {
        let Shape {
            inputs,
            gates,
            outputs,
            ..
        } = *shape;
        let size = Size {
            inputs,
            gates,
            outputs,
        };
        let is_within = compare_limits(trial, size)? == Answer::Done;
        Ok(Drafts {
            engine: Draft::new(size),
            tickwise: tickwise::draft::Draft::new(trial.alloc, inputs, gates, outputs),
            filled: Filled::new(size, is_within),
            additions: 0,
        })
    }

    // Compares how far the draft is filled with what was accepted.
    fn compare_filled(&self, trial: &mut Trial) -> Result<(), Stop> {
        self.filled.compare(&self.engine)?;
        count(&mut trial.counts.drafts);
        Ok(())
    }

    fn add_gate(&mut self, trial: &mut Trial, gate: &Gate) -> Result<(), Stop> {
        let Gate {
            function,
            delay,
            reads,
        } = gate;
        let kind = kind_of(*function);
        let answer = done_or_refused(self.engine.add_gate(kind, *delay, reads));
        let expected = self
            .tickwise
            .add_gate(trial.alloc, *function, *delay, reads)?;
        self.additions = self.additions.saturating_add(1);
        compare(
            Asked::AddGate(self.additions),
            answer,
            done_or_refused(expected),
        )?;
        trial.counts.note(Name::AddGate, answer);
        if answer == Answer::Done {
            self.filled.note_gate();
        }
        self.compare_filled(trial)
    }

    fn add_output(&mut self, trial: &mut Trial, line: u32) -> Result<(), Stop> {
        let answer = done_or_refused(self.engine.add_output(line));
        let expected = self.tickwise.add_output(line)?;
        self.additions = self.additions.saturating_add(1);
        compare(
            Asked::AddOutput(self.additions),
            answer,
            done_or_refused(expected),
        )?;
        trial.counts.note(Name::AddOutput, answer);
        if answer == Answer::Done {
            self.filled.note_output();
        }
        self.compare_filled(trial)
    }

    // Sometimes tries an addition that is bad, or out of order.
    fn try_bad(&mut self, trial: &mut Trial, shape: &Shape, line: u32) -> Result<(), Stop> {
        match trial.random.below(20) {
            0..2 => {
                let gate = draw_bad_gate(trial, shape, line)?;
                self.add_gate(trial, &gate)
            }
            2 => {
                let output = draw_no_line(&mut trial.random, shape.lines());
                self.add_output(trial, output)
            }
            3 => {
                let output = trial.random.within(1, shape.lines());
                self.add_output(trial, output)
            }
            _ => Ok(()),
        }
    }

    fn add_gates(&mut self, trial: &mut Trial, shape: &Shape, count: usize) -> Result<(), Stop> {
        for place in 0..count {
            let line = u32::try_from(shape.inputs.saturating_add(place))
                .unwrap_or(u32::MAX)
                .saturating_add(1);
            self.try_bad(trial, shape, line)?;
            let gate = draw_gate(trial, shape, line)?;
            self.add_gate(trial, &gate)?;
        }
        Ok(())
    }

    fn add_outputs(&mut self, trial: &mut Trial, shape: &Shape, count: usize) -> Result<(), Stop> {
        for _output in 0..count {
            self.try_bad(trial, shape, shape.lines())?;
            let line = trial.random.within(1, shape.lines());
            self.add_output(trial, line)?;
        }
        Ok(())
    }

    // Adds what the shape says. Now and then the last gate or output is left out.
    pub fn draw(&mut self, trial: &mut Trial, shape: &Shape) -> Result<(), Stop> {
        self.compare_filled(trial)?;
        let mut gates = shape.gates;
        let mut outputs = shape.outputs;
        if Draft::limits(Size {
            inputs: shape.inputs,
            gates,
            outputs,
        })
        .is_err()
        {
            gates = gates.min(FEW);
            outputs = outputs.min(FEW);
        }
        match trial.random.below(50) {
            0 => gates = gates.saturating_sub(1),
            1 => outputs = outputs.saturating_sub(1),
            _ => (),
        }
        self.add_gates(trial, shape, gates)?;
        self.add_outputs(trial, shape, outputs)?;
        self.try_bad(trial, shape, shape.lines())
    }

    fn judge(&self, alloc: Global) -> Result<(), Stop> {
        let expected = self.tickwise.judge(alloc)?;
        compare(
            Asked::Judging,
            done_or_refused(self.engine.judge()),
            done_or_refused(expected),
        )?;
        let expected = self.tickwise.unreached(alloc)?;
        compare(
            Asked::Unreached,
            Answer::Line(self.engine.unreached()),
            Answer::Line(expected),
        )
    }

    // Judges and closes both.
    pub fn close(self, trial: &mut Trial) -> Result<Closed, Stop> {
        self.judge(trial.alloc)?;
        let Drafts {
            engine,
            tickwise,
            ..
        } = self;
        let expected = done_or_refused(tickwise.judge(trial.alloc)?);
        let (answer, netlist) = engine.close();
        let answer = done_or_refused(answer);
        compare(Asked::Closing, answer, expected)?;
        trial.counts.note(Name::Close, answer);
        Ok(Closed {
            answer,
            netlist,
            circuit: tickwise.finish(),
        })
    }
}
