// Sessions in three values and in lanes, compared with one in two values by the relations between the systems.
use crate::again::call_again;
use crate::answer::{Answer, Asked, truth_or_refused};
use crate::call::Call;
use crate::counts::count;
use crate::level::{Level, Spelled, System, values_of};
use crate::netlists::netlist_of;
use crate::pair::Pair;
use crate::random::Random;
use crate::stop::{Stop, compare};
use crate::stores::blank;
use crate::tie::{Tie, draw_bit};
use crate::trial::Trial;
use engine::session::Session;
use netlist::closed::Netlist;
use std::alloc::AllocError;
use tickwise::circuit::Circuit;
use tickwise::refusal::Refusal;
use tickwise::two::Two;
use tickwise::value::Value;
use values::bit::Bit;
use values::lane::Lane;
use values::lanes::Lanes;
use values::relation::Relation;
use values::stands_for::StandsFor;
use values::system::ValueSystem;
use values::ternary::Ternary;

// What a job is done with: the circuit, what its inputs begin with, and the calls that were accepted.
#[derive(Clone, Copy)]
pub struct Job<'j> {
    pub circuit: &'j Circuit,
    pub starts: &'j [Level],
    pub log: &'j [Call],
}

// How far beyond their ends inputs are held at most in a session that goes on further.
const FURTHER: u32 = 24;

// Which bits are given in place of values: those that a relation ties to them, or any.
#[derive(Clone, Copy, PartialEq, Eq, Debug)]
enum Given {
    By(Tie),
    Any,
}

impl Given {
    // Mostly those that are tied.
    fn draw(random: &mut Random, tie: Tie) -> Given {
        match random.below(6) {
            0 => Given::Any,
            1 => Given::By(tie.next()),
            _ => Given::By(tie),
        }
    }

    fn bit(self, random: &mut Random, value: Level) -> Level {
        match self {
            Given::By(tie) => tie.draw(random, value),
            Given::Any => draw_bit(random),
        }
    }
}

// How much of a job is done in bits: all of it, only the first of its calls, or all and then more. What more is given is beyond
// the ends of the first session, so it need not be tied.
#[derive(Clone, Copy, PartialEq, Eq, Debug)]
enum Extent {
    Whole,
    Less,
    More,
}

impl Extent {
    fn draw(random: &mut Random) -> Extent {
        match random.below(4) {
            0 => Extent::Less,
            1 => Extent::More,
            _ => Extent::Whole,
        }
    }

    // How many calls of a log are made.
    fn calls(self, random: &mut Random, log: &[Call]) -> usize {
        match self {
            Extent::Less => random.below(u32::try_from(log.len()).unwrap_or(0)) as usize,
            Extent::Whole | Extent::More => log.len(),
        }
    }
}

// A relation as both simulators have it, which bits are given, and how much of the job is done.
#[derive(Clone, Copy)]
struct Comparison<L> {
    relation: L,
    tie: Tie,
    given: Given,
    extent: Extent,
}

impl<L> Comparison<L> {
    // Whether what is given is tied, so that all lines must be.
    fn must_tie(&self) -> bool {
        self.given == Given::By(self.tie)
    }
}

// The calls that give inputs their values or trim, with bits in place of the values; sometimes without trims.
fn bit_log(trial: &mut Trial, log: &[Call], given: Given) -> Result<Vec<Call>, AllocError> {
    let with_trims = trial.random.one_in(2);
    let mut bits = Vec::new(trial.alloc);
    for call in log {
        match *call {
            Call::Feed { line, tick, value } => {
                let value = given.bit(&mut trial.random, value);
                bits.push(Call::Feed { line, tick, value })?;
            }
            Call::Trim(_) if !with_trims => (),
            other => bits.push(other)?,
        }
    }
    Ok(bits)
}

fn bit_starts(trial: &mut Trial, starts: &[Level], given: Given) -> Result<Vec<Level>, AllocError> {
    let mut bits = Vec::new(trial.alloc);
    for value in starts {
        bits.push(given.bit(&mut trial.random, *value))?;
    }
    Ok(bits)
}

// Holds all inputs further than they were given, and trims at what all lines have reached.
fn go_on(trial: &mut Trial, bits: &mut Pair<Bit, Two>) -> Result<(), Stop> {
    let inputs = u32::try_from(bits.tickwise.circuit().inputs).unwrap_or(0);
    for line in 1..=inputs {
        let end = bits.tickwise.settled(line);
        let tick = end.saturating_add(trial.random.below(FURTHER));
        bits.ask(Call::Hold { line, tick })?;
    }
    bits.ask(Call::RunToRest)?;
    let reached = bits.tickwise.reached();
    bits.ask(Call::Trim(reached))?;
    Ok(())
}

// Does a job in two values. A trim may be refused, since other gates may be full than in the first session.
fn do_in_bits(
    trial: &mut Trial,
    bits: &mut Pair<Bit, Two>,
    log: &[Call],
    extent: Extent,
) -> Result<(), Stop> {
    let calls = extent.calls(&mut trial.random, log);
    for call in log.iter().take(calls) {
        call_again(trial, bits, *call)?;
    }
    bits.ask(Call::RunToRest)?;
    if extent == Extent::More {
        go_on(trial, bits)?;
    }
    Ok(())
}

// Whether the values of two sessions on tables are tied. The first is asked first.
fn expect_tied<R: Value + Spelled>(
    tie: Tie,
    first: &tickwise::session::Session<R>,
    bits: &tickwise::session::Session<Two>,
    line: u32,
    tick: u32,
) -> Result<bool, Refusal> {
    let value = first.value(line, tick)?;
    let bit = bits.value(line, tick)?;
    Ok(tie.ties(value.level(), bit.level()))
}

// Whether both sessions refuse to tell a value, and not for one reason.
fn refuse_apart<R: Value>(
    first: &tickwise::session::Session<R>,
    bits: &tickwise::session::Session<Two>,
    line: u32,
    tick: u32,
) -> bool {
    match (first.value(line, tick), bits.value(line, tick)) {
        (Err(refusal), Err(other)) => refusal != other,
        _ => false,
    }
}

fn count_tied(trial: &mut Trial, expected: Result<bool, Refusal>) {
    match expected {
        Ok(true) => count(&mut trial.counts.tied),
        Ok(false) => count(&mut trial.counts.untied),
        Err(_) => count(&mut trial.counts.untold),
    }
}

// Whether the values of a line at a tick are tied, or which session refuses.
fn compare_tied<V: ValueSystem, R: Value + Spelled, L: Relation<V, Bit>>(
    trial: &mut Trial,
    comparison: &Comparison<L>,
    first: &Pair<V, R>,
    bits: &Pair<Bit, Two>,
    line: u32,
    tick: u32,
) -> Result<(), Stop> {
    let Comparison { relation, tie, .. } = comparison;
    let tie = *tie;
    let answer = truth_or_refused(first.engine.tied(relation, &bits.engine, line, tick));
    let expected = expect_tied(tie, &first.tickwise, &bits.tickwise, line, tick);
    count_tied(trial, expected);
    if refuse_apart(&first.tickwise, &bits.tickwise, line, tick) {
        count(&mut trial.counts.apart);
    }
    compare(
        Asked::Tied { tie, line, tick },
        answer,
        truth_or_refused(expected),
    )?;
    if comparison.must_tie() && expected.is_ok() {
        let asked = Asked::MustBeTied { tie, line, tick };
        compare(asked, answer, Answer::Truth(true))?;
    }
    Ok(())
}

// A line at all ticks at which one of the sessions tells its value, at the one before these and the one after them, and at the
// last tick that there is.
fn compare_line<V: ValueSystem, R: Value + Spelled, L: Relation<V, Bit>>(
    trial: &mut Trial,
    comparison: &Comparison<L>,
    first: &Pair<V, R>,
    bits: &Pair<Bit, Two>,
    line: u32,
) -> Result<(), Stop> {
    let trim = first.tickwise.trim_tick().min(bits.tickwise.trim_tick());
    let settled = first.tickwise.settled(line);
    let end = bits.tickwise.settled(line).max(settled);
    for tick in trim.saturating_sub(1)..=end {
        compare_tied(trial, comparison, first, bits, line, tick)?;
    }
    compare_tied(trial, comparison, first, bits, line, u32::MAX)
}

// All lines, and those before the first and after the last, which there are not.
fn compare_lines<V: ValueSystem, R: Value + Spelled, L: Relation<V, Bit>>(
    trial: &mut Trial,
    comparison: &Comparison<L>,
    first: &Pair<V, R>,
    bits: &Pair<Bit, Two>,
) -> Result<(), Stop> {
    for line in 0..=first.tickwise.circuit().lines().saturating_add(1) {
        compare_line(trial, comparison, first, bits, line)?;
    }
    Ok(())
}

// Does a job again in two values, with room for all that inputs are given, and compares all lines.
fn compare_bits<V: ValueSystem, R: Value + Spelled, L: Relation<V, Bit>>(
    trial: &mut Trial,
    comparison: &Comparison<L>,
    first: &Pair<V, R>,
    job: Job,
) -> Result<(), Stop> {
    let room = job.log.len().saturating_add(2);
    let records = room.saturating_mul(job.circuit.lines() as usize);
    let mut store = blank::<Bit>(trial, System::Two, records)?;
    let starts = bit_starts(trial, job.starts, comparison.given)?;
    let values = values_of::<Bit>(trial.alloc, &starts)?;
    let table_values = values_of::<Two>(trial.alloc, &starts)?;
    let mut bits = Pair {
        engine: Session::make(netlist_of(job.circuit)?, &mut store, &values),
        tickwise: tickwise::session::Session::make(
            trial.alloc,
            job.circuit,
            records,
            &table_values,
        )?,
        log: Vec::new(trial.alloc),
        calls: 0,
    };
    let log = bit_log(trial, job.log, comparison.given)?;
    do_in_bits(trial, &mut bits, &log, comparison.extent)?;
    compare_lines(trial, comparison, first, &bits)
}

// Compares a session with one without lines, which refuses every line after the first session has told its value.
fn compare_with_none<V: ValueSystem, R: Value + Spelled, L: Relation<V, Bit>>(
    trial: &mut Trial,
    comparison: &Comparison<L>,
    first: &Pair<V, R>,
) -> Result<(), Stop> {
    let mut store = blank::<Bit>(trial, System::Two, 0)?;
    let nothing = Circuit::empty(trial.alloc);
    let none = Pair {
        engine: Session::make(Netlist::empty(), &mut store, &[]),
        tickwise: tickwise::session::Session::make(trial.alloc, &nothing, 0, &[])?,
        log: Vec::new(trial.alloc),
        calls: 0,
    };
    let line = trial.random.within(1, first.tickwise.circuit().lines());
    compare_line(trial, comparison, first, &none, line)
}

fn compare_by<V: ValueSystem, R: Value + Spelled, L: Relation<V, Bit> + Drop>(
    trial: &mut Trial,
    relation: L,
    tie: Tie,
    first: &Pair<V, R>,
    job: Job,
) -> Result<(), Stop> {
    let comparison = Comparison {
        relation,
        tie,
        given: Given::draw(&mut trial.random, tie),
        extent: Extent::draw(&mut trial.random),
    };
    compare_bits(trial, &comparison, first, job)?;
    compare_with_none(trial, &comparison, first)
}

// A value system whose sessions are compared with one in two values.
pub trait Related: ValueSystem + Spelled {
    fn compare_related<R: Value + Spelled>(
        trial: &mut Trial,
        first: &Pair<Self, R>,
        job: Job,
    ) -> Result<(), Stop>;
}

impl Related for Bit {
    fn compare_related<R: Value + Spelled>(
        _trial: &mut Trial,
        _first: &Pair<Bit, R>,
        _job: Job,
    ) -> Result<(), Stop> {
        Ok(())
    }
}

impl Related for Ternary {
    fn compare_related<R: Value + Spelled>(
        trial: &mut Trial,
        first: &Pair<Ternary, R>,
        job: Job,
    ) -> Result<(), Stop> {
        compare_by(trial, StandsFor, Tie::StandsFor, first, job)
    }
}

impl Related for Lanes {
    fn compare_related<R: Value + Spelled>(
        trial: &mut Trial,
        first: &Pair<Lanes, R>,
        job: Job,
    ) -> Result<(), Stop> {
        let place = Tie::draw_lane(&mut trial.random);
        match Lane::new(place) {
            None => Ok(()),
            Some(relation) => compare_by(trial, relation, Tie::Lane(place), first, job),
        }
    }
}
