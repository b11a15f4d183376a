// Taking the records of a deck.
ghost use Rattle.std.specs.Prelude.{◌≡◌, suc, ◌+◌, length};
ghost use Rattle.deck.specs.Progress.{blank, rows};
ghost use Rattle.deck.specs.Readers.{progress_of, Answers};
ghost use Rattle.deck.specs.Records.{whole, fields_tests};
ghost use Rattle.deck.specs.Tests.{tests};

use super::DeckReader;
use crate::entry::Entry;
use crate::fault::{Fault, Layer};
use crate::phase::Phase;
use crate::record::Record;
use netlist::draft::Draft;
use netlist::refusal::Refusal;
use netlist::size::Size;

impl DeckReader {
    pub fn new() -> DeckReader
        ensures { progress_of result ≡ blank }
    {
        DeckReader {
            records: 0,
            phase: Phase::Header,
            draft: Draft::new(Size::default()),
        }
    }

    // A fault of the next record as a whole, which is told at its first column.
    pub(super) fn fault(&self, refusal: Refusal) -> Fault
        ensures { result ≡ record { refusal = refusal; layer = Layer.Record; «record» = self.now.records + 1; column = 1 } }
    {
        Fault {
            refusal,
            layer: Layer::Record,
            record: self.records + 1,
            column: 1,
        }
    }

    // Opens the draft. This and the next four each ask for a phase and a letter of their own, which the match has found.
    fn header(&mut self, source: &Record) -> Result<Entry, Fault>
        requires phase { self.old.phase ≡ Phase.Header }
        requires letter { source.now.letter ≡ 78 }
        ensures { Answers self.old self.new (whole source.now) source.now.number fields_tests result }
    {
        let size = source.header()?;
        self.draft = Draft::new(size);
        self.phase = Phase::Inputs { told: 0 };
        self.records = 1;
        Ok(Entry::Header(size))
    }

    // Takes the next input; after the last come the gates.
    fn input(&mut self, told: usize, source: &Record) -> Result<Entry, Fault>
        requires phase { self.old.phase ≡ Phase.Inputs told }
        requires letter { source.now.letter ≡ 73 }
        ensures { Answers self.old self.new (whole source.now) source.now.number fields_tests result }
    {
        let line = told + 1;
        source.input(line)?;
        self.phase = if line == self.draft.inputs() {
            Phase::Gates
        } else {
            Phase::Inputs { told: line }
        };
        self.records += 1;
        Ok(Entry::Input(line))
    }

    // Takes the next gate; after the last come the outputs.
    fn gate(&mut self, source: &Record) -> Result<Entry, Fault>
        requires phase { self.old.phase ≡ Phase.Gates }
        requires letter { source.now.letter ≡ 71 }
        ensures { Answers self.old self.new (whole source.now) source.now.number fields_tests result }
    {
        let line = self.draft.next_line();
        let row = source.gate(line, self.draft.lines())?;
        // The record's tests are the draft's own, so the draft takes the gate.
        let _ = self.draft.add_gate(row.kind, row.delay, row.reads());
        self.phase = if self.draft.takes_gate() {
            Phase::Gates
        } else {
            Phase::Outputs
        };
        self.records += 1;
        Ok(Entry::Gate(line, row))
    }

    // Takes the next output; after the last comes the end.
    fn output(&mut self, source: &Record) -> Result<Entry, Fault>
        requires phase { self.old.phase ≡ Phase.Outputs }
        requires letter { source.now.letter ≡ 79 }
        ensures { Answers self.old self.new (whole source.now) source.now.number fields_tests result }
    {
        let line = source.output(self.draft.lines())?;
        // Likewise the output.
        let _ = self.draft.add_output(line);
        self.phase = if self.draft.takes_output() {
            Phase::Outputs
        } else {
            Phase::End
        };
        self.records += 1;
        Ok(Entry::Output(line))
    }

    // Takes the end.
    fn end(&mut self, source: &Record) -> Result<Entry, Fault>
        requires phase { self.old.phase ≡ Phase.End }
        requires letter { source.now.letter ≡ 69 }
        ensures { Answers self.old self.new (whole source.now) source.now.number fields_tests result }
    {
        source.end()?;
        self.phase = Phase::Done;
        self.records += 1;
        Ok(Entry::End)
    }

    // Takes a record, whose letter and the reader's own phase together decide what it may be. They are matched here, in
    // one place, and the letter is matched as the byte that it is.
    pub(super) fn take_record(&mut self, bytes: &[u8]) -> Result<Entry, Fault>
        ensures { Answers self.old self.new bytes.now (suc (length (rows (progress_of self.old)))) tests result }
    {
        let [letter, fields @ ..] = bytes else {
            return Err(self.fault(Refusal::Letter));
        };
        let source = Record {
            number: self.records + 1,
            letter: *letter,
            fields,
        };
        match (self.phase, *letter) {
            (Phase::Header, b'N') => self.header(&source),
            (Phase::Inputs { told }, b'I') => self.input(told, &source),
            (Phase::Gates, b'G') => self.gate(&source),
            (Phase::Outputs, b'O') => self.output(&source),
            (Phase::End, b'E') => self.end(&source),
            _ => Err(source.fault(Refusal::Letter, Layer::Record, 1)),
        }
    }
}
