// A job at random in both simulators.
use crate::answer::{Answer, Asked, done_or_refused};
use crate::call::{Call, Name};
use crate::choice::draw_call;
use crate::counts::count;
use crate::level::{Level, Spelled, System, values_of};
use crate::netlists::compare_netlist;
use crate::pair::Pair;
use crate::random::Random;
use crate::redone::compare_again;
use crate::related::{Job, Related};
use crate::shape::Pace;
use crate::stop::{Stop, compare};
use crate::stores::{blank, compare_store};
use crate::survey::{survey, survey_distances};
use crate::trial::Trial;
use engine::session::Session;
use netlist::closed::Netlist;
use tickwise::circuit::Circuit;
use tickwise::refusal::Refusal;
use tickwise::value::Value;

// How many calls are made of a session without lines.
const FEW_CALLS: u32 = 12;

// How many records a store has at most for a session without lines.
const FEW_RECORDS: u32 = 12;

// Below which tick each input is given a value where there are many.
const FIRST_TICKS: u32 = 12;

// How many records a store has: for a few changes of each line or for more, with some left over; now and then too few. Where
// there are no lines, it has some too.
fn draw_records(random: &mut Random, pace: Pace, lines: u32) -> usize {
    if lines == 0 {
        return random.within(0, FEW_RECORDS) as usize;
    }
    let room = match random.below(24) {
        0 => 0,
        1..12 => random.within(1, 3),
        12..18 => random.within(2, 8),
        _ if pace == Pace::Longest => random.within(2, 8),
        _ => random.within(8, 60),
    };
    let share = room.saturating_add(1);
    lines
        .saturating_mul(share)
        .saturating_add(random.below(lines)) as usize
}

// What inputs begin with; now and then there is one too many, or one too few.
fn draw_starts(trial: &mut Trial, system: System, inputs: usize) -> Result<Vec<Level>, Stop> {
    let count = match trial.random.below(50) {
        0 => inputs.saturating_add(1),
        1 => inputs.saturating_sub(1),
        _ => inputs,
    };
    let mut starts = Vec::new(trial.alloc);
    for _input in 0..count {
        starts.push(system.draw(&mut trial.random))?;
    }
    Ok(starts)
}

// Makes calls at random, and now and then asks for all that can be asked.
fn make_calls<V: Related, R: Value + Spelled>(
    trial: &mut Trial,
    pair: &mut Pair<V, R>,
    system: System,
    pace: Pace,
    calls: u32,
) -> Result<(), Stop> {
    for _call in 0..calls {
        let call = draw_call(&mut trial.random, &pair.tickwise, system, pace);
        pair.call(trial, call)?;
        if pace != Pace::Longest && trial.random.one_in(16) {
            survey(trial, pair)?;
            survey_distances(trial, pair)?;
        }
    }
    Ok(())
}

// Whether a line is full at rest: its gate is refused as full, and not as idle.
fn compare_full<V: Related, R: Value + Spelled>(
    trial: &mut Trial,
    pair: &mut Pair<V, R>,
    line: u32,
) -> Result<(), Stop> {
    let is_full = pair.tickwise.is_full(line);
    let answer = pair.ask(Call::Take(line))?;
    let answer = Answer::Truth(answer == Answer::Refused(Refusal::Full.number()));
    compare(Asked::Full(line), answer, Answer::Truth(is_full))?;
    if is_full {
        count(&mut trial.counts.full);
    }
    Ok(())
}

// Brings both sessions to rest, and compares all.
fn rest<V: Related, R: Value + Spelled>(
    trial: &mut Trial,
    pair: &mut Pair<V, R>,
) -> Result<(), Stop> {
    pair.call(trial, Call::RunToRest)?;
    survey(trial, pair)?;
    survey_distances(trial, pair)?;
    for line in 1..=pair.tickwise.circuit().lines() {
        compare_full(trial, pair, line)?;
    }
    Ok(())
}

// What a job is done with.
#[derive(Drop)]
struct Desk<'c> {
    system: System,
    pace: Pace,
    circuit: &'c Circuit,
    records: usize,
    starts: Vec<Level>,
}

// Whether both make a session, or both refuse with the same number.
fn check<V: Related, R: Value + Spelled>(
    trial: &mut Trial,
    desk: &Desk,
    netlist: &Netlist,
) -> Result<Answer, Stop> {
    let store = blank::<V>(trial, desk.system, desk.records)?;
    let starts = values_of::<V>(trial.alloc, &desk.starts)?;
    let answer = done_or_refused(Session::check(netlist, &store, &starts));
    let starts = values_of::<R>(trial.alloc, &desk.starts)?;
    let expected = tickwise::session::Session::check(desk.circuit, desk.records, &starts);
    compare(Asked::Making, answer, done_or_refused(expected))?;
    trial.counts.note(Name::Make, answer);
    Ok(answer)
}

// Compares a session at rest with others that do its job.
fn compare_others<V: Related, R: Value + Spelled>(
    trial: &mut Trial,
    desk: &Desk,
    pair: &Pair<V, R>,
) -> Result<(), Stop> {
    let job = Job {
        circuit: desk.circuit,
        starts: &desk.starts,
        log: &pair.log,
    };
    compare_again(trial, pair, desk.system, desk.records, job)?;
    V::compare_related(trial, pair, job)
}

// Gives every input some value, and holds it further. Calls at random do so only where inputs are few.
fn give_all<V: Related, R: Value + Spelled>(
    trial: &mut Trial,
    pair: &mut Pair<V, R>,
    system: System,
) -> Result<(), Stop> {
    for line in 1..=pair.tickwise.circuit().lines() {
        if pair.tickwise.circuit().is_input(line) {
            let tick = trial.random.below(FIRST_TICKS);
            let value = system.draw(&mut trial.random);
            pair.call(trial, Call::Feed { line, tick, value })?;
            let tick = trial.random.within(FIRST_TICKS, FIRST_TICKS * 2);
            pair.call(trial, Call::Hold { line, tick })?;
        }
    }
    Ok(())
}

// Does a job in a session with lines.
fn do_job<V: Related, R: Value + Spelled>(
    trial: &mut Trial,
    desk: &Desk,
    pair: &mut Pair<V, R>,
) -> Result<(), Stop> {
    trial.counts.note_session(desk.system);
    survey(trial, pair)?;
    if desk.pace == Pace::Wide {
        give_all(trial, pair, desk.system)?;
    }
    let calls = desk.pace.calls(&mut trial.random);
    make_calls(trial, pair, desk.system, desk.pace, calls)?;
    rest(trial, pair)?;
    compare_others(trial, desk, pair)
}

// Makes both sessions, which are without lines where that is refused, and does a job.
fn work<V: Related, R: Value + Spelled>(
    trial: &mut Trial,
    desk: &Desk,
    netlist: Netlist,
) -> Result<(), Stop> {
    let made = check::<V, R>(trial, desk, &netlist)? == Answer::Done;
    let nothing = Circuit::empty(trial.alloc);
    let circuit = if made { desk.circuit } else { &nothing };
    let mut store = blank::<V>(trial, desk.system, desk.records)?;
    let starts = values_of::<V>(trial.alloc, &desk.starts)?;
    let expected_starts = values_of::<R>(trial.alloc, &desk.starts)?;
    let mut pair = Pair {
        engine: Session::make(netlist, &mut store, &starts),
        tickwise: tickwise::session::Session::make(
            trial.alloc,
            circuit,
            desk.records,
            &expected_starts,
        )?,
        log: Vec::new(trial.alloc),
        calls: 0,
    };
    if made {
        do_job(trial, desk, &mut pair)?;
    } else {
        make_calls(trial, &mut pair, desk.system, desk.pace, FEW_CALLS)?;
        survey(trial, &mut pair)?;
    }
    compare_netlist(trial.alloc, pair.engine.netlist(), circuit)?;
    count(&mut trial.counts.kept_netlists);
    let expected = pair.tickwise.store()?;
    drop(pair);
    compare_store(trial, desk.system, &store, &expected)
}

// Draws the rest of a job, and does it.
pub fn simulate<V: Related, R: Value + Spelled>(
    trial: &mut Trial,
    system: System,
    pace: Pace,
    circuit: &Circuit,
    netlist: Netlist,
) -> Result<(), Stop> {
    let desk = Desk {
        system,
        pace,
        circuit,
        records: draw_records(&mut trial.random, pace, circuit.lines()),
        starts: draw_starts(trial, system, circuit.inputs)?,
    };
    work::<V, R>(trial, &desk, netlist)
}
