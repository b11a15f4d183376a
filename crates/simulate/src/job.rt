// A job: a netlist, and what its inputs are given.
use crate::narrator::Narrator;
use crate::stop::Stop;
use deck::closing::{check_reached, read_netlist};
use deck::entry::{Entry, Taken};
use deck::reader::DeckReader;
use listing::lister::MOST_BYTES;
use netlist::closed::Netlist;
use netlist::draft::Draft;
use std::io;
use stimulus::reader::StimulusReader;

// The bytes of the deck, a reader that stands before the first record of the stimulus, and how many records the store of a
// session has.
#[derive(Clone, Copy)]
pub struct Job<'b> {
    bytes: &'b [u8],
    pub stimulus: StimulusReader<'b>,
    pub records: usize,
}

// A deck that was taken record by record: its draft, how many records were taken, and the bytes after it.
#[derive(Drop)]
struct DeckTaken<'b> {
    draft: Draft,
    taken: usize,
    rest: &'b [u8],
}

// Takes the records of a deck, and tells each.
fn take_deck<'b, R: Print + AllocGlobal>(
    narrator: &Narrator<R>,
    bytes: &'b [u8],
) -> Result<DeckTaken<'b>, Stop> {
    let mut reader = DeckReader::new();
    let mut taken = 0;
    let mut rest = bytes;
    for number in 1..MOST_BYTES {
        let Taken { entry, bytes } = reader.next(rest)?;
        narrator.tell(format_args!("record {number}: {entry}"))?;
        taken = number;
        rest = rest.get(bytes..).unwrap_or(&[]);
        if let Entry::End = entry {
            break;
        }
    }
    Ok(DeckTaken {
        draft: reader.finish(),
        taken,
        rest,
    })
}

// Closes a draft for the telling.
fn tell_closed<R: Print + AllocGlobal>(narrator: &Narrator<R>, draft: Draft) -> io::Result<()> {
    let (_, netlist) = draft.close();
    let lines = netlist.lines();
    let looped = netlist.looped_lines();
    narrator.tell(format_args!("closes the netlist: {lines} lines, {looped} of them looped"))
}

impl<'b> Job<'b> {
    // Reads the deck.
    pub fn read<R: Print + AllocGlobal>(
        narrator: &Narrator<R>,
        bytes: &'b [u8],
        records: usize,
    ) -> Result<Job<'b>, Stop> {
        let DeckTaken { draft, taken, rest } = take_deck(narrator, bytes)?;
        check_reached(&draft)?;
        let stimulus = StimulusReader::new(rest, taken.saturating_add(1), draft.lines());
        tell_closed(narrator, draft)?;
        Ok(Job {
            bytes,
            stimulus,
            records,
        })
    }

    // The netlist, anew for each session.
    pub fn netlist(&self) -> Netlist {
        let (_, netlist) = read_netlist(self.bytes);
        netlist
    }
}
