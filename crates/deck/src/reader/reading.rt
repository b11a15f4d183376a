// Reading a deck record by record, and as a whole.
ghost use Rattle.std.specs.Prelude.{◌≡◌, suc, length, MatchResult};
ghost use Rattle.netlist.specs.Drafts.{Sheet, sheet};
ghost use Rattle.deck.specs.Faults.{told};
ghost use Rattle.deck.specs.Outcomes.{Fails, FirstFault, Answer, answer_of, Outcome};
ghost use Rattle.deck.specs.Progress.{blank, rows};
ghost use Rattle.deck.specs.Readers.{progress_of, finished, TookFrom, ReadAll, Unfinished};

use super::DeckReader;
use crate::entry::Taken;
use crate::fault::Fault;
use crate::phase::Phase;
use crate::record::record_length;
use netlist::draft::Draft;
use netlist::refusal::Refusal;
use netlist::size::Size;

impl DeckReader {
    // Takes the record that the bytes begin with. A fault alters nothing.
    pub fn next(&mut self, bytes: &[u8]) -> Result<Taken, Fault>
        ensures { MatchResult result (λ t. TookFrom self.old self.new bytes.now t) (λ f. Fails (progress_of self.old) (suc (length (rows (progress_of self.old)))) bytes.now (told f) × (self.new ≡ self.old)) }
    {
        let Some(length) = record_length(bytes) else {
            return Err(self.fault(Refusal::Cut));
        };
        let entry = self.take_record(&bytes[..length])?;
        Ok(Taken {
            entry,
            bytes: length + 1,
        })
    }

    // The draft, once the deck's end was taken; before that a dead one, since a draft comes either way.
    pub fn finish(self) -> Draft
        ensures { sheet result ≡ finished (progress_of self) }
    {
        let DeckReader {
            records: _,
            phase,
            draft,
        } = self;
        match phase {
            Phase::Done => draft,
            _ => Draft::new(Size::default()),
        }
    }

    // Takes records to the end of the deck. How many bytes they took so far is also where the next begins.
    fn run(&mut self, bytes: &[u8]) -> Result<usize, Fault>
        requires { progress_of self.old ≡ blank }
        ensures { MatchResult result (λ n. ReadAll self.new bytes.now n) (λ f. FirstFault bytes.now (told f) × Unfinished self.new) }
    {
        let mut used = 0;
        while self.phase != Phase::Done {
            // `_entry` is unused; without a local of its type the checker cannot resolve this `?`.
            let Taken {
                entry: _entry,
                bytes: length,
            } = self.next(&bytes[used..])?;
            used += length;
        }
        Ok(used)
    }
}

// Reads a deck: the bytes used and the draft, or the first fault and a dead draft. A pair, since a draft comes either
// way.
pub fn read(bytes: &[u8]) -> (Result<usize, Fault>, Draft)
    ensures comes_to { Outcome bytes.now (answer_of result.0) (sheet result.1) }
    ensures only { (a : Answer) (s : Sheet) → Outcome bytes.now a s → (a ≡ answer_of result.0) × (s ≡ sheet result.1) }
{
    let mut reader = DeckReader::new();
    let outcome = reader.run(bytes);
    (outcome, reader.finish())
}
