// A session compared with another that does its job again.
use crate::again::{do_again, redraw};
use crate::answer::{Answer, Asked};
use crate::call::Call;
use crate::counts::count;
use crate::level::{Spelled, System, values_of};
use crate::netlists::netlist_of;
use crate::pair::Pair;
use crate::random::Random;
use crate::related::{Job, Related};
use crate::stop::{Stop, compare};
use crate::stores::{blank, compare_store};
use crate::trial::Trial;
use engine::session::Session;
use tickwise::value::Value;

// After how many takes of a job that is done again stores are compared at most.
const MOST_TAKES: u32 = 24;

// Below how many calls of a job are still to be done again when stores are compared.
const LAST_CALLS: u32 = 6;

// How many records another store of the same room has: as many shares, and some left over.
fn draw_like_records(random: &mut Random, records: usize, lines: u32) -> usize {
    let lines = lines as usize;
    let rest = records.checked_rem(lines).unwrap_or(0);
    let spare = random.below(u32::try_from(lines).unwrap_or(0)) as usize;
    records.saturating_sub(rest).saturating_add(spare)
}

// Whether two sessions must have equal stores is told by their tables.
fn compare_same<V: Related, R: Value + Spelled>(
    pair: &Pair<V, R>,
    again: &Pair<V, R>,
) -> Result<bool, Stop> {
    let same = same_stores(&again.tickwise, &pair.tickwise)?;
    let answer = Answer::Truth(pair.engine.same_store(&again.engine));
    compare(Asked::SameStore, answer, Answer::Truth(same))?;
    Ok(same)
}

// Compares two stores before the last calls that alter one of them.
fn compare_unlike<V: Related, R: Value + Spelled>(
    trial: &mut Trial,
    pair: &Pair<V, R>,
    again: &Pair<V, R>,
) -> Result<(), Stop> {
    if compare_same(pair, again)? {
        count(&mut trial.counts.like);
    } else {
        count(&mut trial.counts.unlike);
    }
    Ok(())
}

// Runs a session take by take, and compares its store with the other one after each, so that there are stores which differ in
// few records.
fn compare_takes<V: Related, R: Value + Spelled>(
    trial: &mut Trial,
    pair: &Pair<V, R>,
    again: &mut Pair<V, R>,
) -> Result<(), Stop> {
    for _take in 0..MOST_TAKES {
        compare_unlike(trial, pair, again)?;
        if again.ask(Call::AtRest)? == Answer::Truth(true) {
            break;
        }
        again.ask(Call::Run(1))?;
    }
    Ok(())
}

// Does a log again. The stores are compared when the other session is made, at some place near the end, before the last takes,
// and when it was given the same and rests: then they must be the same.
fn do_and_compare<V: Related, R: Value + Spelled>(
    trial: &mut Trial,
    pair: &Pair<V, R>,
    again: &mut Pair<V, R>,
    log: &[Call],
) -> Result<(), Stop> {
    compare_unlike(trial, pair, again)?;
    let last = trial.random.below(LAST_CALLS) as usize;
    let (earlier, later) = log.split_at(log.len().saturating_sub(last));
    do_again(trial, again, earlier)?;
    compare_unlike(trial, pair, again)?;
    do_again(trial, again, later)?;
    compare_takes(trial, pair, again)?;
    again.ask(Call::RunToRest)?;
    let same = compare_same(pair, again)?;
    compare(Asked::SameStore, Answer::Truth(same), Answer::Truth(true))
}

// How far all lines are settled at rest, and how many of their changes are kept.
fn compare_states<V: Related, R: Value + Spelled>(pair: &mut Pair<V, R>) -> Result<(), Stop> {
    pair.ask(Call::AtRest)?;
    for line in 1..=pair.tickwise.circuit().lines() {
        pair.ask(Call::State(line))?;
    }
    Ok(())
}

// Does the job of a session again in another store, cut and ordered otherwise, and compares both.
pub fn compare_again<V: Related, R: Value + Spelled>(
    trial: &mut Trial,
    pair: &Pair<V, R>,
    system: System,
    records: usize,
    job: Job,
) -> Result<(), Stop> {
    let records = draw_like_records(&mut trial.random, records, job.circuit.lines());
    let mut store = blank::<V>(trial, system, records)?;
    let starts = values_of::<V>(trial.alloc, job.starts)?;
    let table_starts = values_of::<R>(trial.alloc, job.starts)?;
    let mut again = Pair {
        engine: Session::make(netlist_of(job.circuit)?, &mut store, &starts),
        tickwise: tickwise::session::Session::make(
            trial.alloc,
            job.circuit,
            records,
            &table_starts,
        )?,
        log: Vec::new(trial.alloc),
        calls: 0,
    };
    let log = redraw(trial, job.log)?;
    do_and_compare(trial, pair, &mut again, &log)?;
    compare_states(&mut again)?;
    let expected = again.tickwise.store()?;
    drop(again);
    count(&mut trial.counts.again);
    compare_store(trial, system, &store, &expected)
}

// Whether two sessions on tables must have equal stores.
fn same_stores<R: Value>(
    left: &tickwise::session::Session<R>,
    right: &tickwise::session::Session<R>,
) -> Result<bool, Stop> {
    let left = left.store()?;
    let right = right.store()?;
    let mut same = left.len() == right.len();
    for (record, other) in left.iter().zip(right.iter()) {
        same &= record.tick == other.tick && record.value.same(other.value);
    }
    Ok(same)
}
