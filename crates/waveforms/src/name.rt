// Names of lines.
use netlist::closed::Netlist;
use netlist::kind::Kind;
use std::fmt;

// A line with the kind of the gate that drives it, if one does: `in1` is an input, `n4_nand` a gate's line.
#[derive(Clone, Copy, PartialEq, Eq, Debug)]
pub struct Name {
    line: u32,
    kind: Option<Kind>,
}

impl Name {
    pub fn of(netlist: &Netlist, line: u32) -> Name {
        let kind = netlist.row(line).map(|row| row.kind);
        Name { line, kind }
    }
}

fn lowercase(kind: Kind) -> &'static str {
    match kind {
        Kind::Buf => "buf",
        Kind::Not => "not",
        Kind::And => "and",
        Kind::Or => "or",
        Kind::Xor => "xor",
        Kind::Nand => "nand",
        Kind::Nor => "nor",
        Kind::Xnor => "xnor",
    }
}

impl fmt::Display for Name {
    fn fmt<W: fmt::Write>(&self, f: &mut fmt::Formatter<W>) -> fmt::Result {
        let line = self.line;
        match self.kind {
            None => write!(f, "in{line}"),
            Some(kind) => write!(f, "n{line}_{}", lowercase(kind)),
        }
    }
}
