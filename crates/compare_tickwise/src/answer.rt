// What both simulators answer, and what they are asked.
use crate::call::Call;
use crate::level::Level;
use crate::tie::Tie;
use netlist::kind::Kind;
use std::fmt;

// A refusal is told by its number.
#[derive(Clone, Copy, PartialEq, Eq, Debug)]
pub enum Answer {
    Done,
    Refused(u8),
    Settled(u32),
    Ran { takes: u32, rests: bool },
    Took(u64),
    Shows(Level),
    Change { tick: u32, value: Level },
    State { settled: u32, kept: usize },
    Truth(bool),
    Count(usize),
    Line(Option<u32>),
    Tick(u32),
    Gate(Option<(Kind, u32)>),
}

impl fmt::Display for Answer {
    fn fmt<W: fmt::Write>(&self, f: &mut fmt::Formatter<W>) -> fmt::Result {
        match self {
            Answer::Done => f.write_str("done"),
            Answer::Refused(number) => write!(f, "refused {number}"),
            Answer::Settled(tick) => write!(f, "settled to {tick}"),
            Answer::Ran { takes, rests } => write!(f, "{takes} taken, at rest: {rests}"),
            Answer::Took(takes) => write!(f, "{takes} taken"),
            Answer::Shows(value) => write!(f, "{value}"),
            Answer::Change { tick, value } => write!(f, "{tick} {value}"),
            Answer::State { settled, kept } => write!(f, "settled to {settled}, {kept} kept"),
            Answer::Truth(truth) => write!(f, "{truth}"),
            Answer::Count(count) => write!(f, "{count}"),
            Answer::Line(None) => f.write_str("no line"),
            Answer::Line(Some(line)) => write!(f, "line {line}"),
            Answer::Tick(tick) => write!(f, "tick {tick}"),
            Answer::Gate(None) => f.write_str("no gate"),
            Answer::Gate(Some((kind, delay))) => write!(f, "{kind}, delay {delay}"),
        }
    }
}

// The refusals of both simulators.
pub trait Numbered {
    fn told(self) -> Answer;
}

impl Numbered for netlist::refusal::Refusal {
    fn told(self) -> Answer {
        Answer::Refused(self.number())
    }
}

impl Numbered for tickwise::refusal::Refusal {
    fn told(self) -> Answer {
        Answer::Refused(self.number())
    }
}

// What is answered to a call that tells nothing else.
pub fn done_or_refused<E: Numbered + Drop>(answer: Result<(), E>) -> Answer {
    match answer {
        Ok(()) => Answer::Done,
        Err(refusal) => refusal.told(),
    }
}

// What is answered to a question of truth that may be refused.
pub fn truth_or_refused<E: Numbered + Drop>(answer: Result<bool, E>) -> Answer {
    match answer {
        Ok(truth) => Answer::Truth(truth),
        Err(refusal) => refusal.told(),
    }
}

// What is asked of both.
#[derive(Clone, Copy, PartialEq, Eq, Debug)]
pub enum Asked {
    Limits,
    AddGate(usize),
    AddOutput(usize),
    Judging,
    Closing,
    Unreached,
    Inputs,
    Lines,
    NextLine,
    TakesGate,
    TakesOutput,
    IsComplete,
    Gates,
    Outputs,
    Gate(u32),
    Read { line: u32, place: usize },
    Looped(u32),
    Marked(u32),
    LoopedLines,
    Output(usize),
    Making,
    Call { number: usize, call: Call },
    Distance(u32),
    Full(u32),
    Record(usize),
    SameStore,
    Again(Call),
    Tied { tie: Tie, line: u32, tick: u32 },
    MustBeTied { tie: Tie, line: u32, tick: u32 },
}

impl fmt::Display for Asked {
    fn fmt<W: fmt::Write>(&self, f: &mut fmt::Formatter<W>) -> fmt::Result {
        match self {
            Asked::Limits => f.write_str("limits"),
            Asked::AddGate(number) => write!(f, "addition {number}, of a gate"),
            Asked::AddOutput(number) => write!(f, "addition {number}, of an output"),
            Asked::Judging => f.write_str("judging"),
            Asked::Closing => f.write_str("closing"),
            Asked::Unreached => f.write_str("the lowest gate that no input reaches"),
            Asked::Inputs => f.write_str("inputs"),
            Asked::Lines => f.write_str("lines"),
            Asked::NextLine => f.write_str("the line of the next gate"),
            Asked::TakesGate => f.write_str("whether a gate may come next"),
            Asked::TakesOutput => f.write_str("whether an output may come next"),
            Asked::IsComplete => f.write_str("whether all gates and outputs stand"),
            Asked::Gates => f.write_str("gates"),
            Asked::Outputs => f.write_str("outputs"),
            Asked::Gate(line) => write!(f, "the gate on line {line}"),
            Asked::Read { line, place } => write!(f, "operand {place} of line {line}"),
            Asked::Looped(line) => write!(f, "whether line {line} is looped"),
            Asked::Marked(line) => write!(f, "whether the row of line {line} is marked as looped"),
            Asked::LoopedLines => f.write_str("looped lines"),
            Asked::Output(place) => write!(f, "output {place}"),
            Asked::Making => f.write_str("making"),
            Asked::Call { number, call } => write!(f, "after {number} calls: {call}"),
            Asked::Distance(line) => write!(f, "settled time at rest of line {line}"),
            Asked::Full(line) => write!(f, "whether line {line} is full at rest"),
            Asked::Record(place) => write!(f, "record {place} of the store"),
            Asked::SameStore => f.write_str("whether two stores are the same"),
            Asked::Again(call) => write!(f, "the job done again: {call}"),
            Asked::Tied { tie, line, tick } => {
                write!(f, "whether {tie} ties line {line} at {tick}")
            }
            Asked::MustBeTied { tie, line, tick } => write!(
                f,
                "whether {tie} ties line {line} at {tick}, where all that was given is tied"
            ),
        }
    }
}

// What was asked, and what both answered.
#[derive(Clone, Copy, Debug)]
pub struct Difference {
    pub asked: Asked,
    pub engine: Answer,
    pub tickwise: Answer,
}

impl fmt::Display for Difference {
    fn fmt<W: fmt::Write>(&self, f: &mut fmt::Formatter<W>) -> fmt::Result {
        let Difference {
            asked,
            engine,
            tickwise,
        } = self;
        write!(
            f,
            "{asked}: the engine answers {engine}, tickwise {tickwise}"
        )
    }
}
