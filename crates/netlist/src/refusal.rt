// Every refusal of the simulator, with its number and its word.
ghost use Rattle.std.specs.Prelude.{◌≡◌, Some};
ghost use Rattle.netlist.specs.Refusals.{number, word};

use std::error::Error;
use std::fmt;

#[derive(Clone, Copy, PartialEq, Eq, Debug)]
pub enum Refusal {
    Cut = 1,
    Letter = 2,
    Length = 3,
    Figure = 4,
    Range = 5,
    Turn = 6,
    Kind = 7,
    Open = 8,
    Free = 9,
    Store = 10,
    Starts = 11,
    Line = 12,
    Past = 13,
    Late = 14,
    Unsettled = 15,
    Full = 16,
    Idle = 17,
    None = 18,
}

impl Refusal {
    pub fn number(self) -> u8
        ensures { result ≡ number self }
    {
        self as u8
    }

    pub fn word(self) -> &'static str
        ensures { result.now ≡ word self }
    {
        match self {
            Refusal::Cut => "cut",
            Refusal::Letter => "letter",
            Refusal::Length => "length",
            Refusal::Figure => "figure",
            Refusal::Range => "range",
            Refusal::Turn => "turn",
            Refusal::Kind => "kind",
            Refusal::Open => "open",
            Refusal::Free => "free",
            Refusal::Store => "store",
            Refusal::Starts => "starts",
            Refusal::Line => "line",
            Refusal::Past => "past",
            Refusal::Late => "late",
            Refusal::Unsettled => "unsettled",
            Refusal::Full => "full",
            Refusal::Idle => "idle",
            Refusal::None => "none",
        }
    }
}

// Written out, since its text is promised.
impl fmt::Display for Refusal {
    ghost output = { λ refusal. Some (word refusal) };

    fn fmt<W: fmt::Write>(&self, f: &mut fmt::Formatter<W>) -> fmt::Result {
        f.write_str(self.word())
    }
}

impl Error for Refusal {}
