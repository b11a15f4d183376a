// Calls of a session.
use crate::level::Level;
use std::fmt;

#[derive(Clone, Copy, PartialEq, Eq, Debug)]
pub enum Call {
    Feed { line: u32, tick: u32, value: Level },
    Hold { line: u32, tick: u32 },
    Take(u32),
    Run(u32),
    RunToRest,
    Trim(u32),
    Value { line: u32, tick: u32 },
    Event { line: u32, k: usize },
    State(u32),
    AtRest,
    Room,
    TrimTick,
}

impl fmt::Display for Call {
    fn fmt<W: fmt::Write>(&self, f: &mut fmt::Formatter<W>) -> fmt::Result {
        match self {
            Call::Feed { line, tick, value } => write!(
                f,
                "feed line {line} at {tick} with {value}"
            ),
            Call::Hold { line, tick } => write!(f, "hold line {line} up to {tick}"),
            Call::Take(line) => write!(f, "take line {line}"),
            Call::Run(most) => write!(f, "run {most}"),
            Call::RunToRest => f.write_str("run to rest"),
            Call::Trim(tick) => write!(f, "trim at {tick}"),
            Call::Value { line, tick } => write!(f, "value of line {line} at {tick}"),
            Call::Event { line, k } => write!(f, "change {k} of line {line}"),
            Call::State(line) => write!(f, "state of line {line}"),
            Call::AtRest => f.write_str("at rest"),
            Call::Room => f.write_str("room"),
            Call::TrimTick => f.write_str("trim tick"),
        }
    }
}

// The names of what is counted: what a draft is asked, the making of a session, and its calls.
#[derive(Clone, Copy, PartialEq, Eq, Debug)]
pub enum Name {
    Limits,
    AddGate,
    AddOutput,
    Close,
    Make,
    Feed,
    Hold,
    Take,
    Run,
    RunToRest,
    Trim,
    Value,
    Event,
    State,
}

impl Name {
    pub const ALL: [Name; 14] = [
        Name::Limits,
        Name::AddGate,
        Name::AddOutput,
        Name::Close,
        Name::Make,
        Name::Feed,
        Name::Hold,
        Name::Take,
        Name::Run,
        Name::RunToRest,
        Name::Trim,
        Name::Value,
        Name::Event,
        Name::State,
    ];

    pub fn word(self) -> &'static str {
        match self {
            Name::Limits => "limits",
            Name::AddGate => "add_gate",
            Name::AddOutput => "add_output",
            Name::Close => "close",
            Name::Make => "make",
            Name::Feed => "feed",
            Name::Hold => "hold",
            Name::Take => "take",
            Name::Run => "run",
            Name::RunToRest => "run_to_rest",
            Name::Trim => "trim",
            Name::Value => "value",
            Name::Event => "event",
            Name::State => "state",
        }
    }
}

// What a call gives an input: from which tick on it may be a new value, and how far it has then been given values.
#[derive(Clone, Copy, PartialEq, Eq, Debug)]
pub struct Gift {
    pub line: u32,
    pub tick: u32,
    pub end: u32,
}

impl Call {
    pub fn gift(self) -> Option<Gift> {
        match self {
            Call::Feed { line, tick, .. } => {
                let end = tick.saturating_add(1);
                Some(Gift { line, tick, end })
            }
            Call::Hold { line, tick } => {
                let end = tick;
                Some(Gift { line, tick, end })
            }
            _ => None,
        }
    }

    // The name under which a call is counted, if it is one that arguments are drawn for.
    pub fn name(self) -> Option<Name> {
        match self {
            Call::Feed { .. } => Some(Name::Feed),
            Call::Hold { .. } => Some(Name::Hold),
            Call::Take(_) => Some(Name::Take),
            Call::Run(_) => Some(Name::Run),
            Call::RunToRest => Some(Name::RunToRest),
            Call::Trim(_) => Some(Name::Trim),
            Call::Value { .. } => Some(Name::Value),
            Call::Event { .. } => Some(Name::Event),
            Call::State(_) => Some(Name::State),
            Call::AtRest | Call::Room | Call::TrimTick => None,
        }
    }
}
