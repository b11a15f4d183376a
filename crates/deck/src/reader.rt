// The reader of a deck, which takes one record after the other.
ghost use Rattle.std.specs.Prelude.{◌≡◌, true, length};
ghost use Rattle.netlist.specs.Drafts.{sheet};
ghost use Rattle.deck.specs.Phases.{agrees, progress};
ghost use Rattle.deck.specs.Progress.{rows};

use crate::phase::Phase;
use netlist::draft::Draft;

pub mod reading;
pub mod taking;

// How many records it has taken, its phase, and the draft so far.
#[derive(Drop)]
pub struct DeckReader {
    records: usize,
    phase: Phase,
    draft: Draft,
    ghost phased: { agrees phase (sheet draft) ≡ true },
    ghost counted: { records ≡ length (rows (progress phase (sheet draft))) },
}
