// Faults: what was refused, by which layer, and where.
ghost use Rattle.std.specs.Prelude.{◌≡◌};
ghost use Rattle.deck.specs.Faults.{layer_letter, told, fault_row};

use netlist::refusal::Refusal;
use std::error::Error;
use std::fmt;

// The layer that refused: a number field, a record, the netlist, or the session.
#[derive(Clone, Copy, PartialEq, Eq, Debug)]
pub enum Layer {
    Field = b'F' as isize,
    Record = b'R' as isize,
    Netlist = b'N' as isize,
    Session = b'S' as isize,
}

impl Layer {
    pub fn letter(self) -> u8
        ensures { result ≡ layer_letter self }
    {
        self as u8
    }
}

// A refusal with its layer, its record and its column, both counted from 1.
#[derive(Clone, Copy, PartialEq, Eq, Debug)]
pub struct Fault {
    pub refusal: Refusal,
    pub layer: Layer,
    pub record: usize,
    pub column: usize,
}

impl Fault {
    // The row of a listing that tells the fault: R, number, record and column right-justified, the layer's letter. A
    // number too long for its columns leaves them blank, which a width of `{}` does not.
    pub fn row(&self) -> [u8; 17]
        ensures { result ≡ fault_row (told self.now) }
    {
        let mut row = *b"R               \n";
        let _ = columns::write(self.refusal.number() as u64, &mut row[1..5]);
        let _ = columns::write(self.record as u64, &mut row[5..10]);
        let _ = columns::write(self.column as u64, &mut row[10..14]);
        row[15] = self.layer.letter();
        row
    }
}

// Written out, since its text is promised.
impl fmt::Display for Fault {
    ghost use Rattle.std.specs.Prelude.{Some};
    ghost use Rattle.deck.specs.Faults.{message};

    ghost output = { λ fault. Some (message fault) };

    fn fmt<W: fmt::Write>(&self, f: &mut fmt::Formatter<W>) -> fmt::Result {
        let Fault {
            refusal,
            record,
            column,
            ..
        } = self;
        write!(f, "{refusal} in record {record}, column {column}")
    }
}

impl Error for Fault {}
