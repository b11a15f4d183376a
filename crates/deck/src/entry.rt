// The records of a deck as they are understood.
use netlist::row::GateRow;
use netlist::size::Size;
use std::fmt;

// A record; the header with the netlist's size, inputs, gates and outputs with their lines.
#[derive(Clone, Copy, Debug)]
pub enum Entry {
    Header(Size),
    Input(usize),
    Gate(usize, GateRow),
    Output(u32),
    End,
}

// Written out, since its text is promised.
impl fmt::Display for Entry {
    ghost use Rattle.std.specs.Prelude.{Some};
    ghost use Rattle.deck.specs.Rows.{row_of, message};

    ghost output = { λ entry. Some (message (row_of entry)) };

    fn fmt<W: fmt::Write>(&self, f: &mut fmt::Formatter<W>) -> fmt::Result {
        match self {
            Entry::Header(
                Size {
                    inputs,
                    gates,
                    outputs,
                },
            ) => write!(
                f,
                "header, {inputs} inputs, {gates} gates, {outputs} outputs"
            ),
            Entry::Input(line) => write!(f, "input on line {line}"),
            Entry::Gate(line, row) => write!(f, "gate on line {line}: {row}"),
            Entry::Output(line) => write!(f, "output of line {line}"),
            Entry::End => f.write_str("end"),
        }
    }
}

// An entry, and how many bytes its record takes with its ending.
#[derive(Clone, Copy, Debug)]
pub struct Taken {
    pub entry: Entry,
    pub bytes: usize,
}
