// The reader of a stimulus, which takes one record after the other.
ghost use Rattle.std.specs.Prelude.{◌+◌, ◌≤◌, length};

use crate::entry::{Entry, Taken};
use crate::record::{end, feed, hold};
use deck::fault::{Fault, Layer};
use deck::record::{Record, record_length};
use netlist::refusal::Refusal;

// What comes next: what is given, or nothing, after the end.
#[derive(Clone, Copy, PartialEq, Eq, Debug)]
pub enum Phase {
    Given,
    Done,
}

// The bytes that are left, the number of the record that they begin with, how many lines there are, and the phase. The
// records can be counted to the last byte.
#[derive(Clone, Copy)]
pub struct StimulusReader<'a> {
    rest: &'a [u8],
    record: usize,
    lines: usize,
    phase: Phase,
    ghost countable: { «record» + length rest.now ≤ 18446744073709551615 },
}

impl<'a> StimulusReader<'a> {
    ghost use Rattle.std.specs.Prelude.{◌≡◌, ◌-◌, min, Option, Result, MatchResult, OnErr};
    ghost use Rattle.deck.specs.Faults.{Told};
    ghost use Rattle.deck.specs.Records.{Failed};
    ghost use Rattle.stimulus.specs.Readers.{Place, place, answer_of, Outcome};
    ghost use Rattle.stimulus.specs.Rows.{text, Legal};
    ghost use Rattle.stimulus.specs.Tests.{tests};
    ghost use Rattle.stimulus.specs.declared.entry.Taken.{Taken};
    ghost use Rattle.stimulus.specs.declared.reader.Phase.TheVariants.{Given};

    // A reader of a stimulus whose records count on from this number, for a netlist of so many lines. Where they could not be
    // counted to the last byte, they count from a smaller one.
    pub fn new(bytes: &'a [u8], record: usize, lines: usize) -> StimulusReader<'a>
        ensures begins { place result ≡ record { rest = bytes.now; at = min «record» (18446744073709551615 - length bytes.now); lines = lines; phase = Given } }
    {
        StimulusReader {
            rest: bytes,
            record: record.min(usize::MAX - bytes.len()),
            lines,
            phase: Phase::Given,
        }
    }

    // A fault of the next record as a whole, which is told at its first column.
    fn fault(&self, refusal: Refusal) -> Fault
        ensures { result ≡ record { refusal = refusal; layer = Layer.Record; «record» = self.now.«record»; column = 1 } }
    {
        Fault {
            refusal,
            layer: Layer::Record,
            record: self.record,
            column: 1,
        }
    }

    // What the next record says. Its letter and the reader's own phase together decide what it may be; they are matched here,
    // in one place.
    fn entry(&self, bytes: &[u8]) -> Result<Entry, Fault>
        ensures { MatchResult result (λ e. (self.now.phase ≡ Given) × (bytes.now ≡ text e) × Legal self.now.lines e) (λ f. Failed bytes.now self.now.«record» (tests self.now.phase self.now.lines bytes.now) f) }
    {
        let [letter, fields @ ..] = bytes else {
            return Err(self.fault(Refusal::Letter));
        };
        let source = Record {
            number: self.record,
            letter: *letter,
            fields,
        };
        match (self.phase, *letter) {
            (Phase::Given, b'F') => feed(&source, self.lines),
            (Phase::Given, b'H') => hold(&source, self.lines),
            (Phase::Given, b'E') => end(&source),
            _ => Err(self.fault(Refusal::Letter)),
        }
    }

    // Takes the next record; there is none once the end was taken and no byte follows. A fault alters nothing.
    pub fn next(&mut self) -> Result<Option<Taken>, Fault>
        ensures answers { Outcome (place self.old) (answer_of result) (place self.new) }
        ensures refused_alters_nothing { OnErr result (self.new ≡ self.old) }
        ensures only { (a : Result (Option Taken) Told) (p : Place) → Outcome (place self.old) a p → (a ≡ answer_of result) × (p ≡ place self.new) }
    {
        if self.phase == Phase::Done && self.rest.is_empty() {
            return Ok(None);
        }
        let Some(length) = record_length(self.rest) else {
            return Err(self.fault(Refusal::Cut));
        };
        let entry = self.entry(&self.rest[..length])?;
        let record = self.record;
        if entry == Entry::End {
            self.phase = Phase::Done;
        }
        self.rest = &self.rest[length + 1..];
        self.record += 1;
        Ok(Some(Taken { record, entry }))
    }
}
