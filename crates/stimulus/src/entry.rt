// The records of a stimulus as they are understood.
use std::fmt;
use values::ternary::Ternary;

// A value that is fed to a line at a tick, a line that is held up to a tick, the end.
#[derive(Clone, Copy, PartialEq, Eq, Debug)]
pub enum Entry {
    Feed {
        line: u32,
        tick: u32,
        value: Ternary,
    },
    Hold {
        line: u32,
        tick: u32,
    },
    End,
}

// Written out, since its text is promised.
impl fmt::Display for Entry {
    ghost use Rattle.std.specs.Prelude.{Some};
    ghost use Rattle.stimulus.specs.Rows.{message};

    ghost output = { λ entry. Some (message entry) };

    fn fmt<W: fmt::Write>(&self, f: &mut fmt::Formatter<W>) -> fmt::Result {
        match self {
            Entry::Feed { line, tick, value } => write!(
                f,
                "feed line {line} at {tick} with {value}"
            ),
            Entry::Hold { line, tick } => write!(f, "hold line {line} up to {tick}"),
            Entry::End => f.write_str("end"),
        }
    }
}

// A record that was taken: its number, and what it says.
#[derive(Clone, Copy, PartialEq, Eq, Debug)]
pub struct Taken {
    pub record: usize,
    pub entry: Entry,
}
