// A record taken apart: its letter, and the fields that stand in its columns.
ghost use Rattle.std.specs.Prelude.{◌≡◌, ◌+◌, ◌*◌, ◌<◌, ◌≤◌, true, false, length, take, MatchOption, MatchResult, slice_index};
ghost use Rattle.std.specs.Int.{is_in_range};
ghost use Rattle.netlist.specs.Drafts.{within_limits};
ghost use Rattle.netlist.specs.GateRow.{drawn};
ghost use Rattle.netlist.specs.Gates.{legal};
ghost use Rattle.netlist.specs.Rows.{gate_of};
ghost use Rattle.deck.specs.Outcomes.{Unended};
ghost use Rattle.deck.specs.Progress.{header_next, input_next, gate_next, output_next, end_next};
ghost use Rattle.deck.specs.Records.{whole, Spells, Failed, Refuted, ReadsShown, fields_tests};
ghost use Rattle.deck.specs.Rows.{header, input, gate, output, end, kind_text};
ghost use Rattle.deck.specs.Tests.{columns, Shows, has, figure, long, kind_known, number_tests, line_tests, reads_tests};

use crate::fault::{Fault, Layer};
use arrayvec::ArrayVec;
use netlist::draft::Draft;
use netlist::kind::Kind;
use netlist::refusal::Refusal;
use netlist::row::GateRow;
use netlist::size::Size;

// How many bytes stand before the first byte 10.
pub fn record_length(bytes: &[u8]) -> Option<usize>
    ensures { MatchOption result (Unended bytes.now) (λ n. (n < length bytes.now) × (slice_index bytes.now n ≡ 10) × Unended (take n bytes.now)) }
{
    bytes.iter().position(|byte| *byte == b'\n')
}

// So many columns of a record, one or more, from the first on. Columns count from 1, which is the letter's; a number of at
// most 19 columns is one of 64 bits.
#[derive(Clone, Copy)]
pub struct Span {
    pub first: usize,
    pub width: usize,
    ghost past_letter: { 2 ≤ first },
    ghost some: { 1 ≤ width },
    ghost narrow: { width ≤ 19 },
}

// The line of an input, a gate or an output.
const LINE: Span = Span { first: 2, width: 4 };

// How many inputs, gates and outputs a header tells.
const INPUTS: Span = Span { first: 2, width: 4 };

const GATES: Span = Span { first: 6, width: 4 };

const OUTPUTS: Span = Span {
    first: 10,
    width: 4,
};

// A gate's kind and its delay.
const KIND: Span = Span { first: 6, width: 4 };

const DELAY: Span = Span {
    first: 10,
    width: 5,
};

// The record's number, counted from 1, its letter, and the bytes from column 2 on.
#[derive(Clone, Copy)]
pub struct Record<'a> {
    pub number: usize,
    pub letter: u8,
    pub fields: &'a [u8],
}

impl<'a> Record<'a> {
    pub fn fault(&self, refusal: Refusal, layer: Layer, column: usize) -> Fault
        ensures { result ≡ record { refusal = refusal; layer = layer; «record» = self.now.number; column = column } }
    {
        Fault {
            refusal,
            layer,
            record: self.number,
            column,
        }
    }

    // The bytes in the columns, if the record has so many.
    pub fn columns(&self, span: Span) -> Option<&[u8]>
        ensures { MatchOption result (length self.now.fields.now + 2 < span.first + span.width) (λ bytes. (bytes.now ≡ columns (whole self.now) span.first span.width) × (length bytes.now ≡ span.width)) }
    {
        self.fields.get(span.first - 2..)?.get(..span.width)
    }

    // The number in the columns.
    fn figure(&self, span: Span) -> Result<u64, Fault>
        ensures { MatchResult result (λ n. Shows (whole self.now) span.first span.width n) (λ f. Refuted (whole self.now) self.now.number (figure span.first span.width) f) }
    {
        let fault = self.fault(Refusal::Figure, Layer::Field, span.first);
        let Some(bytes) = self.columns(span) else {
            return Err(fault);
        };
        columns::read(bytes).or(Err(fault))
    }

    // The number in the columns, which is at least and at most so much.
    pub fn number(&self, span: Span, least: u64, most: u64) -> Result<u64, Fault>
        ensures { MatchResult result (λ n. Shows (whole self.now) span.first span.width n × (least ≤ n) × (n ≤ most)) (λ f. Failed (whole self.now) self.now.number (number_tests span.first span.width least most) f) }
    {
        let number = self.figure(span)?;
        if (least..=most).contains(&number) {
            Ok(number)
        } else {
            Err(self.fault(Refusal::Range, Layer::Record, span.first))
        }
    }

    // That the record's line is the one whose turn it is.
    fn turn(&self, line: usize) -> Result<(), Fault>
        ensures { MatchResult result (λ _. Shows (whole self.now) 2 4 line) (λ f. Failed (whole self.now) self.now.number (line_tests 2 4 line) f) }
    {
        let number = self.figure(LINE)?;
        if number != line as u64 {
            return Err(self.fault(Refusal::Turn, Layer::Record, LINE.first));
        }
        Ok(())
    }

    // The kind of a gate. The four columns are matched whole, blanks too: a name that is cut out and then looked up
    // would take two steps.
    fn kind(&self) -> Result<Kind, Fault>
        ensures { MatchResult result (λ k. columns (whole self.now) 6 4 ≡ kind_text k) (λ f. Refuted (whole self.now) self.now.number kind_known f) }
    {
        let fault = self.fault(Refusal::Kind, Layer::Record, KIND.first);
        let Some(name) = self.columns(KIND) else {
            return Err(fault);
        };
        match name {
            b"BUF " => Ok(Kind::Buf),
            b"NOT " => Ok(Kind::Not),
            b"AND " => Ok(Kind::And),
            b"OR  " => Ok(Kind::Or),
            b"XOR " => Ok(Kind::Xor),
            b"NAND" => Ok(Kind::Nand),
            b"NOR " => Ok(Kind::Nor),
            b"XNOR" => Ok(Kind::Xnor),
            _ => Err(fault),
        }
    }

    // The lines that a gate reads, four columns each from column 15 on.
    fn reads(&self, count: usize, lines: usize) -> Result<ArrayVec<u32, 4>, Fault>
        requires few { count ≤ 4 }
        ensures { MatchResult result (λ ns. (length ns.items ≡ count) × ReadsShown (whole self.now) lines count ns.items) (λ f. Failed (whole self.now) self.now.number (reads_tests lines count) f) }
    {
        let mut reads = ArrayVec::new();
        for place in 0..count {
            let span = Span {
                first: 15 + 4 * place,
                width: 4,
            };
            let line = self.number(span, 1, lines as u64)?;
            reads.push(line as u32);
        }
        Ok(reads)
    }

    // That the record has one of the lengths allowed.
    pub fn length(&self, allowed: &[usize]) -> Result<(), Fault>
        ensures { MatchResult result (λ _. has (length (whole self.now)) allowed.now ≡ true) (λ f. Refuted (whole self.now) self.now.number (long allowed.now) f) }
    {
        if allowed.contains(&(self.fields.len() + 1)) {
            Ok(())
        } else {
            Err(self.fault(Refusal::Length, Layer::Record, 1))
        }
    }

    // N: how many inputs, gates and outputs.
    pub(crate) fn header(&self) -> Result<Size, Fault>
        ensures { MatchResult result (λ h. Spells self.now (header h.inputs h.gates h.outputs) × (within_limits h.inputs h.gates h.outputs ≡ true)) (λ f. Failed (whole self.now) self.now.number (fields_tests header_next (length (whole self.now))) f) }
    {
        self.length(&[13])?;
        let inputs = self.number(INPUTS, 1, Draft::MOST_INPUTS as u64)?;
        let gates = self.number(GATES, 1, Draft::MOST_GATES as u64)?;
        let outputs = self.number(OUTPUTS, 1, Draft::MOST_OUTPUTS as u64)?;
        Ok(Size {
            inputs: inputs as usize,
            gates: gates as usize,
            outputs: outputs as usize,
        })
    }

    // I: the line of the next input.
    pub(crate) fn input(&self, line: usize) -> Result<(), Fault>
        ensures { MatchResult result (λ _. Spells self.now (input line)) (λ f. Failed (whole self.now) self.now.number (fields_tests (input_next line) (length (whole self.now))) f) }
    {
        self.length(&[5])?;
        self.turn(line)
    }

    // G: the next gate. The fault of its row is matched, since a closure would promise nothing of what it makes.
    pub(crate) fn gate(&self, line: usize, lines: usize) -> Result<GateRow, Fault>
        ensures { MatchResult result (λ row. Spells self.now (gate line (gate_of row)) × (legal lines (gate_of row) ≡ true) × (row ≡ drawn (gate_of row))) (λ f. Failed (whole self.now) self.now.number (fields_tests (gate_next line lines) (length (whole self.now))) f) }
    {
        self.length(&[18, 22, 26, 30])?;
        let count = (self.fields.len() - 13) / 4;
        self.turn(line)?;
        let kind = self.kind()?;
        let delay = self.number(DELAY, 1, Draft::MOST_DELAY as u64)?;
        let reads = self.reads(count, lines)?;
        match GateRow::new(kind, delay as u32, &reads) {
            Ok(row) => Ok(row),
            Err(refusal) => Err(self.fault(refusal, Layer::Record, KIND.first)),
        }
    }

    // O: the line that an output names.
    pub(crate) fn output(&self, lines: usize) -> Result<u32, Fault>
        ensures { MatchResult result (λ n. Spells self.now (output n) × (is_in_range 1 lines n ≡ true)) (λ f. Failed (whole self.now) self.now.number (fields_tests (output_next lines) (length (whole self.now))) f) }
    {
        self.length(&[5])?;
        let line = self.number(LINE, 1, lines as u64)?;
        Ok(line as u32)
    }

    // E: nothing but its letter.
    pub(crate) fn end(&self) -> Result<(), Fault>
        ensures { MatchResult result (λ _. Spells self.now end) (λ f. Failed (whole self.now) self.now.number (fields_tests end_next (length (whole self.now))) f) }
    {
        self.length(&[1])
    }
}
