// All that can be asked of a session, compared.
use crate::answer::{Answer, Asked, Numbered};
use crate::asking::{ask_engine, changed};
use crate::call::Call;
use crate::counts::count;
use crate::level::Spelled;
use crate::pair::Pair;
use crate::stop::{Stop, compare};
use crate::trial::Trial;
use tickwise::value::Value;
use values::system::ValueSystem;

// All kept changes of a line, and the one after the last, which there is not.
fn survey_changes<V: ValueSystem + Spelled, R: Value + Spelled>(
    trial: &mut Trial,
    pair: &mut Pair<V, R>,
    line: u32,
) -> Result<(), Stop> {
    let changes = pair.tickwise.kept_changes(line)?;
    for (k, change) in changes.iter().enumerate() {
        let call = Call::Event { line, k };
        let answer = ask_engine(&mut pair.engine, call);
        let number = pair.calls;
        compare(Asked::Call { number, call }, answer, changed(*change))?;
        count(&mut trial.counts.changes);
    }
    let k = changes.len();
    pair.ask(Call::Event { line, k })?;
    Ok(())
}

// The values of a line, from the tick before the trim tick to the one at which it is not settled.
fn survey_values<V: ValueSystem + Spelled, R: Value + Spelled>(
    trial: &mut Trial,
    pair: &mut Pair<V, R>,
    line: u32,
) -> Result<(), Stop> {
    let first = pair.tickwise.trim_tick().saturating_sub(1);
    for tick in first..=pair.tickwise.settled(line) {
        if let Answer::Shows(_) = pair.ask(Call::Value { line, tick })? {
            count(&mut trial.counts.values);
        }
    }
    Ok(())
}

// All lines, and those before the first and after the last, which there are not.
pub fn survey<V: ValueSystem + Spelled, R: Value + Spelled>(
    trial: &mut Trial,
    pair: &mut Pair<V, R>,
) -> Result<(), Stop> {
    for call in [Call::AtRest, Call::Room, Call::TrimTick] {
        pair.ask(call)?;
    }
    for line in 0..=pair.tickwise.circuit().lines().saturating_add(1) {
        pair.ask(Call::State(line))?;
        survey_changes(trial, pair, line)?;
        survey_values(trial, pair, line)?;
    }
    Ok(())
}

// At rest each line is settled to its distance; before that there is nothing to compare.
pub fn survey_distances<V: ValueSystem + Spelled, R: Value + Spelled>(
    trial: &mut Trial,
    pair: &mut Pair<V, R>,
) -> Result<(), Stop> {
    if !pair.tickwise.at_rest() {
        return Ok(());
    }
    let distances = pair.tickwise.distances()?;
    for line in 1..=pair.tickwise.circuit().lines() {
        let settled = match pair.engine.state(line) {
            Ok(state) => Answer::Tick(state.settled),
            Err(refusal) => refusal.told(),
        };
        let place = (line as usize).saturating_sub(1);
        let expected = match distances.get(place).copied().flatten() {
            None => Answer::Line(None),
            Some(distance) => Answer::Tick(distance),
        };
        compare(Asked::Distance(line), settled, expected)?;
        count(&mut trial.counts.distances);
    }
    Ok(())
}
