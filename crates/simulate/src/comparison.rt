// A session compared with others that do the same job.
use crate::carrying::{Cut, carry_out};
use crate::desk::Desk;
use crate::job::Job;
use crate::narrator::Narrator;
use crate::stop::Stop;
use engine::session::Session;
use std::alloc::Global;
use values::bit::Bit;
use values::lane::Lane;
use values::lanes::Lanes;
use values::relation::Relation;
use values::stands_for::StandsFor;
use values::system::ValueSystem;
use values::ternary::Ternary;
use waveforms::level::Shown;

// Does the job again in another store, cut and ordered otherwise, and compares the stores: of sessions that are given alike
// they must be equal at rest.
pub fn compare_cuts<V: Shown, R: Print + AllocGlobal>(
    narrator: &Narrator<R>,
    job: &Job,
    session: &Session<V>,
) -> Result<(), Stop> {
    narrator.tell(
        "does the job again: after each record takes the last gate that can be taken, and runs 2",
    )?;
    let mut desk = Desk::<V>::new(narrator.rt.alloc(), job)?;
    let mut other = desk.session(job);
    carry_out(narrator, job, Cut::Pieces, &mut other)?;
    if !session.same_store(&other) {
        return Err(Stop::Differs);
    }
    narrator.tell("compares both: their stores are the same, as they must be")?;
    Ok(())
}

// Adds the ticks at which a line of a session changes.
fn add_ticks<V: ValueSystem>(
    ticks: &mut Vec<u32>,
    session: &Session<V>,
    line: u32,
) -> Result<(), Stop> {
    for k in 0..session.state(line)?.kept {
        ticks.push(session.event(line, k)?.tick)?;
    }
    Ok(())
}

// Tick 0, and the ticks at which a line changes in one of the sessions, each once; in between both keep their values.
fn ticks<V: ValueSystem, W: ValueSystem>(
    alloc: Global,
    left: &Session<V>,
    right: &Session<W>,
    line: u32,
) -> Result<Vec<u32>, Stop> {
    let mut ticks = vec![in alloc; 0; 1]?;
    add_ticks(&mut ticks, left, line)?;
    add_ticks(&mut ticks, right, line)?;
    ticks.sort_unstable();
    ticks.dedup();
    Ok(ticks)
}

// How many values of lines were compared, and how many of them are tied.
#[derive(Clone, Copy, Default)]
struct Tally {
    compared: u64,
    tied: u64,
}

impl Tally {
    fn note(&mut self, tied: bool) {
        self.compared = self.compared.saturating_add(1);
        self.tied = self.tied.saturating_add(tied as u64);
    }

    // The values of a line that are settled in both sessions.
    fn compare_line<V: ValueSystem, W: ValueSystem, L: Relation<V, W>>(
        &mut self,
        alloc: Global,
        relation: &L,
        left: &Session<V>,
        right: &Session<W>,
        line: u32,
    ) -> Result<(), Stop> {
        let end = left.state(line)?.settled.min(right.state(line)?.settled);
        for tick in ticks(alloc, left, right, line)? {
            if tick < end {
                self.note(left.tied(relation, right, line, tick)?);
            }
        }
        Ok(())
    }

    // The values of all lines.
    fn compare<V: ValueSystem, W: ValueSystem, L: Relation<V, W>>(
        &mut self,
        alloc: Global,
        relation: &L,
        left: &Session<V>,
        right: &Session<W>,
    ) -> Result<(), Stop> {
        let lines = left.netlist().lines() as u32;
        for line in 1..=lines {
            self.compare_line(alloc, relation, left, right, line)?;
        }
        Ok(())
    }

    // Tells what was found; all values must be tied.
    fn tell<R: Print + AllocGlobal>(self, narrator: &Narrator<R>) -> Result<(), Stop> {
        let Tally { compared, tied } = self;
        narrator.tell(format_args!("compares both: {compared} values, {tied} of them tied"))?;
        if tied < compared {
            return Err(Stop::Untied { compared, tied });
        }
        Ok(())
    }
}

// A value system whose sessions are compared with one in a related system, if there is one.
pub trait Related: Shown {
    fn compare_related<R: Print + AllocGlobal>(
        narrator: &Narrator<R>,
        job: &Job,
        session: &Session<Self>,
    ) -> Result<(), Stop>;
}

impl Related for Ternary {
    fn compare_related<R: Print + AllocGlobal>(
        _narrator: &Narrator<R>,
        _job: &Job,
        _session: &Session<Self>,
    ) -> Result<(), Stop> {
        Ok(())
    }
}

// In three values a line may change more often, from X to 0 at first, and there may be no room for that.
fn without_comparison<R: Print + AllocGlobal>(
    narrator: &Narrator<R>,
    stop: Stop,
) -> Result<(), Stop> {
    match stop {
        Stop::Fault(fault) => Ok(narrator.tell(format_args!("compares nothing: {fault}"))?),
        stop => Err(stop),
    }
}

// In three values the inputs and the looped lines begin with X, which stands for the 0 that they begin with here.
impl Related for Bit {
    fn compare_related<R: Print + AllocGlobal>(
        narrator: &Narrator<R>,
        job: &Job,
        session: &Session<Self>,
    ) -> Result<(), Stop> {
        narrator.tell("does the job in three values, X at first")?;
        let mut desk = Desk::<Ternary>::new(narrator.rt.alloc(), job)?;
        let mut other = desk.session(job);
        if let Err(stop) = carry_out(narrator, job, Cut::AllFirst, &mut other) {
            return without_comparison(narrator, stop);
        }
        let mut tally = Tally::default();
        tally.compare(narrator.rt.alloc(), &StandsFor, &other, session)?;
        tally.tell(narrator)
    }
}

// Each lane does the job in two values.
impl Related for Lanes {
    fn compare_related<R: Print + AllocGlobal>(
        narrator: &Narrator<R>,
        job: &Job,
        session: &Session<Self>,
    ) -> Result<(), Stop> {
        narrator.tell("does the job in two values, to compare it with each lane")?;
        let mut desk = Desk::<Bit>::new(narrator.rt.alloc(), job)?;
        let mut other = desk.session(job);
        carry_out(narrator, job, Cut::AllFirst, &mut other)?;
        let mut tally = Tally::default();
        for place in 0..64 {
            if let Some(lane) = Lane::new(place) {
                tally.compare(narrator.rt.alloc(), &lane, session, &other)?;
            }
        }
        tally.tell(narrator)
    }
}
