// A job as a session does it.
use crate::job::Job;
use crate::narrator::Narrator;
use crate::stop::Stop;
use deck::fault::{Fault, Layer};
use engine::session::{Ending, Ran, Session};
use listing::lister::MOST_BYTES;
use netlist::refusal::Refusal;
use std::io;
use stimulus::entry::{Entry, Taken};
use waveforms::level::Shown;
use waveforms::name::Name;

// How a job is cut: all is given before the first take; or after each record the last gate that can be taken is taken, and
// then some gates in turn.
#[derive(Clone, Copy, PartialEq, Eq, Debug)]
pub enum Cut {
    AllFirst,
    Pieces,
}

// How many takes are made after each record of a job in pieces.
const FEW: u32 = 2;

// Gives what a record says. That a line is no input is refused before its value is looked at.
fn give<V: Shown>(session: &mut Session<V>, record: usize, entry: Entry) -> Result<(), Stop> {
    let given = match entry {
        Entry::Feed { line, tick, value } => match V::named(value) {
            Some(value) => session.feed(line, tick, value),
            None if line as usize > session.netlist().inputs() => Err(Refusal::Line),
            None => return Err(Stop::Unnamed { record }),
        },
        Entry::Hold { line, tick } => session.hold(line, tick),
        Entry::End => Ok(()),
    };
    match given {
        Ok(()) => Ok(()),
        Err(refusal) => Err(Stop::Fault(Fault {
            refusal,
            layer: Layer::Session,
            record,
            column: 1,
        })),
    }
}

// The answer to a record that was taken.
fn tell_given<V: Shown, R: Print + AllocGlobal>(
    narrator: &Narrator<R>,
    session: &Session<V>,
    record: usize,
    entry: Entry,
) -> Result<(), Stop> {
    match entry {
        Entry::Feed { line, .. } | Entry::Hold { line, .. } => {
            let settled = session.state(line)?.settled;
            narrator.tell(format_args!("record {record}: {entry}: done, settled to {settled}"))?;
        }
        Entry::End => narrator.tell(format_args!("record {record}: {entry}"))?,
    }
    Ok(())
}

// Makes so many takes, or fewer to rest.
fn run<V: Shown, R: Print + AllocGlobal>(
    narrator: &Narrator<R>,
    session: &mut Session<V>,
    most: u32,
) -> io::Result<()> {
    let Ran { takes, ending } = session.run(most);
    let ending = match ending {
        Ending::Rest => "rest",
        Ending::More => "more",
    };
    narrator.tell(format_args!("runs: {takes} taken, {ending}"))
}

fn run_to_rest<V: Shown, R: Print + AllocGlobal>(
    narrator: &Narrator<R>,
    session: &mut Session<V>,
) -> io::Result<()> {
    let takes = session.run_to_rest();
    narrator.tell(format_args!("runs to rest: {takes} taken"))
}

// Takes the last gate that can be taken.
fn take_last<V: Shown, R: Print + AllocGlobal>(
    narrator: &Narrator<R>,
    session: &mut Session<V>,
) -> io::Result<()> {
    let lines = session.netlist().lines() as u32;
    for line in (1..=lines).rev() {
        if let Ok(settled) = session.take(line) {
            let name = Name::of(session.netlist(), line);
            return narrator.tell(format_args!("takes {name}: settled to {settled}"));
        }
    }
    Ok(())
}

// Gives all that the job says, and runs to rest.
pub fn carry_out<V: Shown, R: Print + AllocGlobal>(
    narrator: &Narrator<R>,
    job: &Job,
    cut: Cut,
    session: &mut Session<V>,
) -> Result<(), Stop> {
    let mut stimulus = job.stimulus;
    for _ in 0..MOST_BYTES {
        let Some(Taken { record, entry }) = stimulus.next()? else {
            break;
        };
        give(session, record, entry)?;
        tell_given(narrator, session, record, entry)?;
        if cut == Cut::Pieces {
            take_last(narrator, session)?;
            run(narrator, session, FEW)?;
        }
    }
    run_to_rest(narrator, session)?;
    Ok(())
}
