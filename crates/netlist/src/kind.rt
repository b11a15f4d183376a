// The kinds of gates.
ghost use Rattle.std.specs.Prelude.{◌≡◌, Some};
ghost use Rattle.netlist.specs.Gates.{fits, kind_name};

use std::fmt;

#[derive(Clone, Copy, PartialEq, Eq, Debug)]
pub enum Kind {
    Buf,
    Not,
    And,
    Or,
    Xor,
    Nand,
    Nor,
    Xnor,
}

impl Kind {
    // Whether a gate of this kind may have so many inputs: one for BUF and NOT, two to four for the others.
    pub fn takes(self, count: usize) -> bool
        ensures { result ≡ fits self count }
    {
        match self {
            Kind::Buf | Kind::Not => count == 1,
            _ => (2..=4).contains(&count),
        }
    }

    pub fn name(self) -> &'static str
        ensures { result.now ≡ kind_name self }
    {
        match self {
            Kind::Buf => "BUF",
            Kind::Not => "NOT",
            Kind::And => "AND",
            Kind::Or => "OR",
            Kind::Xor => "XOR",
            Kind::Nand => "NAND",
            Kind::Nor => "NOR",
            Kind::Xnor => "XNOR",
        }
    }
}

impl fmt::Display for Kind {
    ghost output = { λ kind. Some (kind_name kind) };

    fn fmt<W: fmt::Write>(&self, f: &mut fmt::Formatter<W>) -> fmt::Result {
        f.write_str(self.name())
    }
}
