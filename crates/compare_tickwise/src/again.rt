// A job done again, cut and ordered otherwise.
use crate::answer::{Answer, Asked};
use crate::call::{Call, Gift};
use crate::level::Spelled;
use crate::pair::Pair;
use crate::random::Random;
use crate::stop::{Stop, compare};
use crate::trial::Trial;
use std::alloc::AllocError;
use tickwise::value::Value;
use values::system::ValueSystem;

// How far an input has been given values by the calls of a log.
fn end_of(log: &[Call], line: u32) -> u32 {
    let mut end = 0;
    for call in log {
        match call.gift() {
            Some(gift) if gift.line == line => end = gift.end,
            _ => (),
        }
    }
    end
}

// Sometimes a hold on the way to what an input is given next.
fn draw_stop(random: &mut Random, log: &[Call], call: Call) -> Option<Call> {
    let Gift { line, tick, .. } = call.gift()?;
    if !random.one_in(3) {
        return None;
    }
    let tick = random.within(end_of(log, line), tick);
    Some(Call::Hold { line, tick })
}

// The calls of a log, with some holds before what inputs are given.
fn cut(trial: &mut Trial, log: &[Call]) -> Result<Vec<Call>, AllocError> {
    let mut pieces = Vec::new(trial.alloc);
    for call in log {
        if let Some(stop) = draw_stop(&mut trial.random, &pieces, *call) {
            pieces.push(stop)?;
        }
        pieces.push(*call)?;
    }
    Ok(pieces)
}

// Whether two calls give values to two inputs. Neither plays a part in what the other is answered.
fn commute(call: Call, other: Call) -> bool {
    match (call.gift(), other.gift()) {
        (Some(gift), Some(next)) => gift.line != next.line,
        _ => false,
    }
}

// Lets a call and the next one change places if that makes no difference.
fn swap_with_next(log: &mut Vec<Call>, place: usize) {
    let next = place.saturating_add(1);
    let (Some(call), Some(other)) = (log.get(place).copied(), log.get(next).copied()) else {
        return;
    };
    if commute(call, other) {
        log.swap(place, next);
    }
}

// Mixes what inputs are given between two trims, each input's in its own order.
fn mix(random: &mut Random, log: &mut Vec<Call>) {
    let calls = u32::try_from(log.len()).unwrap_or(0);
    for _swap in 0..calls.saturating_mul(calls) {
        let place = random.below(calls.saturating_sub(1)) as usize;
        swap_with_next(log, place);
    }
}

// A log that gives inputs the same, cut and ordered otherwise.
pub fn redraw(trial: &mut Trial, log: &[Call]) -> Result<Vec<Call>, AllocError> {
    let mut redrawn = cut(trial, log)?;
    mix(&mut trial.random, &mut redrawn);
    Ok(redrawn)
}

// Makes some takes of any gates, and runs of one take.
fn stir<V: ValueSystem + Spelled, R: Value + Spelled>(
    random: &mut Random,
    pair: &mut Pair<V, R>,
) -> Result<(), Stop> {
    let lines = pair.tickwise.circuit().lines();
    for _take in 0..random.below(4) {
        if random.one_in(2) {
            pair.ask(Call::Take(random.within(1, lines)))?;
        } else {
            pair.ask(Call::Run(1))?;
        }
    }
    Ok(())
}

// Makes a call of a log, and some takes after it. To trim, all fronts must have come so far.
pub fn call_again<V: ValueSystem + Spelled, R: Value + Spelled>(
    trial: &mut Trial,
    pair: &mut Pair<V, R>,
    call: Call,
) -> Result<Answer, Stop> {
    if let Call::Trim(_) = call {
        pair.ask(Call::RunToRest)?;
    }
    let answer = pair.ask(call)?;
    stir(&mut trial.random, pair)?;
    Ok(answer)
}

// Makes the calls of a log, which must be accepted.
pub fn do_again<V: ValueSystem + Spelled, R: Value + Spelled>(
    trial: &mut Trial,
    pair: &mut Pair<V, R>,
    log: &[Call],
) -> Result<(), Stop> {
    for call in log {
        let answer = call_again(trial, pair, *call)?;
        compare(Asked::Again(*call), answer, Answer::Done)?;
    }
    Ok(())
}
