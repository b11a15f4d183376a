// What a session answers to a call, in each simulator.
use crate::answer::{Answer, Numbered};
use crate::call::Call;
use crate::level::Spelled;
use engine::session::{Ending, LineState, Ran, Session};
use events::record::EventRecord;
use netlist::refusal::Refusal;
use std::alloc::AllocError;
use tickwise::session::{Change, State};
use tickwise::value::Value;
use values::system::ValueSystem;

type Outcome = Result<Result<Answer, tickwise::refusal::Refusal>, AllocError>;

fn try_engine<V: ValueSystem + Spelled>(
    session: &mut Session<V>,
    call: Call,
) -> Result<Answer, Refusal> {
    Ok(match call {
        Call::Feed { line, tick, value } => {
            session.feed(line, tick, V::of(value))?;
            Answer::Done
        }
        Call::Hold { line, tick } => {
            session.hold(line, tick)?;
            Answer::Done
        }
        Call::Take(line) => Answer::Settled(session.take(line)?),
        Call::Run(most) => {
            let Ran { takes, ending } = session.run(most);
            let rests = ending == Ending::Rest;
            Answer::Ran { takes, rests }
        }
        Call::RunToRest => Answer::Took(session.run_to_rest()),
        Call::Trim(tick) => {
            session.trim(tick)?;
            Answer::Done
        }
        Call::Value { line, tick } => Answer::Shows(session.value(line, tick)?.level()),
        Call::Event { line, k } => {
            let EventRecord { tick, value } = session.event(line, k)?;
            let value = value.level();
            Answer::Change { tick, value }
        }
        Call::State(line) => {
            let LineState { settled, kept } = session.state(line)?;
            Answer::State { settled, kept }
        }
        Call::AtRest => Answer::Truth(session.at_rest()),
        Call::Room => Answer::Count(session.room()),
        Call::TrimTick => Answer::Tick(session.trim_tick()),
    })
}

// What a session of the engine answers.
pub fn ask_engine<V: ValueSystem + Spelled>(session: &mut Session<V>, call: Call) -> Answer {
    match try_engine(session, call) {
        Ok(answer) => answer,
        Err(refusal) => refusal.told(),
    }
}

fn ran(ran: tickwise::session::Ran) -> Answer {
    let tickwise::session::Ran { takes, rests } = ran;
    Answer::Ran { takes, rests }
}

fn stated(state: State) -> Answer {
    let State { settled, kept } = state;
    Answer::State { settled, kept }
}

// A change as an answer.
pub fn changed<R: Spelled>(change: Change<R>) -> Answer {
    Answer::Change {
        tick: change.tick,
        value: change.value.level(),
    }
}

fn try_tickwise<R: Value + Spelled>(
    session: &mut tickwise::session::Session<R>,
    call: Call,
) -> Outcome {
    Ok(match call {
        Call::Feed { line, tick, value } => {
            session
                .feed(line, tick, R::of(value))?
                .map(|_| Answer::Done)
        }
        Call::Hold { line, tick } => session.hold(line, tick)?.map(|_| Answer::Done),
        Call::Take(line) => session.take(line).map(Answer::Settled),
        Call::Run(most) => Ok(ran(session.run(most))),
        Call::RunToRest => Ok(Answer::Took(session.run(u32::MAX).takes as u64)),
        Call::Trim(tick) => session.trim(tick).map(|_| Answer::Done),
        Call::Value { line, tick } => {
            session
                .value(line, tick)
                .map(|value| Answer::Shows(value.level()))
        }
        Call::Event { line, k } => session.event(line, k).map(changed),
        Call::State(line) => session.state(line).map(stated),
        Call::AtRest => Ok(Answer::Truth(session.at_rest())),
        Call::Room => Ok(Answer::Count(session.room())),
        Call::TrimTick => Ok(Answer::Tick(session.trim_tick())),
    })
}

// What a session on the table answers.
pub fn ask_tickwise<R: Value + Spelled>(
    session: &mut tickwise::session::Session<R>,
    call: Call,
) -> Result<Answer, AllocError> {
    match try_tickwise(session, call)? {
        Ok(answer) => Ok(answer),
        Err(refusal) => Ok(refusal.told()),
    }
}
