// Sessions of decks under their stimuli.
use deck::closing::read_netlist;
use engine::session::Session;
use events::record::EventRecord;
use netlist::refusal::Refusal;
use std::alloc::{AllocError, Global};
use std::test::Fail;
use stimulus::entry::Entry;
use stimulus::reader::StimulusReader;
use waveforms::level::Shown;

// How many records a session has.
const RECORDS: usize = 4_096;

fn store<V: Shown>(alloc: Global) -> Result<Vec<EventRecord<V>>, AllocError> {
    let blank = EventRecord {
        tick: 0,
        value: V::START,
    };
    vec![in alloc; blank; RECORDS]
}

fn give<V: Shown>(session: &mut Session<V>, entry: Entry) -> Result<(), Refusal> {
    match entry {
        Entry::Feed { line, tick, value } => {
            session.feed(line, tick, V::named(value).unwrap_or(V::START))
        }
        Entry::Hold { line, tick } => session.hold(line, tick),
        Entry::End => Ok(()),
    }
}

// Gives all that the stimulus says, and runs to rest.
pub fn carry_out<V: Shown>(session: &mut Session<V>, stimulus: &[u8]) -> Result<(), Fail> {
    let lines = session.netlist().lines();
    let mut reader = StimulusReader::new(stimulus, 1, lines);
    for _ in 0..stimulus.len() {
        let Some(taken) = reader.next()? else {
            break;
        };
        give(session, taken.entry)?;
    }
    session.run_to_rest();
    Ok(())
}

// What the session of an example is made from: its deck and its stimulus, a store, and START for each input.
#[derive(Drop)]
pub struct Desk<'t, V> {
    text: &'t [u8],
    pub stimulus: &'t [u8],
    store: Vec<EventRecord<V>>,
    starts: Vec<V>,
}

impl<'t, V: Shown> Desk<'t, V> {
    pub fn new(alloc: Global, text: &'t str) -> Result<Desk<'t, V>, Fail> {
        let text = text.as_bytes();
        let (used, netlist) = read_netlist(text);
        Ok(Desk {
            text,
            stimulus: text.get(used?..).ok_or("past the end")?,
            store: store(alloc)?,
            starts: vec![in alloc; V::START; netlist.inputs()]?,
        })
    }

    pub fn session(&mut self) -> Session<'_, V> {
        let (_, netlist) = read_netlist(self.text);
        Session::make(netlist, &mut self.store, &self.starts)
    }
}
