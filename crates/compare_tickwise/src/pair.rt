// A session in both simulators.
use crate::answer::{Answer, Asked};
use crate::asking::{ask_engine, ask_tickwise};
use crate::call::Call;
use crate::level::Spelled;
use crate::stop::{Stop, compare};
use crate::trial::Trial;
use engine::session::Session;
use tickwise::value::Value;
use values::system::ValueSystem;

// Both sessions, the accepted calls that give inputs their values or trim, and how many calls there were.
#[derive(Drop)]
pub struct Pair<'a, 'c, V, R> {
    pub engine: Session<'a, V>,
    pub tickwise: tickwise::session::Session<'c, R>,
    pub log: Vec<Call>,
    pub calls: usize,
}

impl<'a, 'c, V: ValueSystem + Spelled, R: Value + Spelled> Pair<'a, 'c, V, R> {
    // Makes a call in both, which must answer the same.
    pub fn ask(&mut self, call: Call) -> Result<Answer, Stop> {
        let answer = ask_engine(&mut self.engine, call);
        let expected = ask_tickwise(&mut self.tickwise, call)?;
        let number = self.calls;
        compare(Asked::Call { number, call }, answer, expected)?;
        Ok(answer)
    }

    // Makes a call of the job, counts it, and keeps it if it is one that alike logs have in common.
    pub fn call(&mut self, trial: &mut Trial, call: Call) -> Result<(), Stop> {
        let answer = self.ask(call)?;
        self.calls = self.calls.saturating_add(1);
        if let Some(name) = call.name() {
            trial.counts.note(name, answer);
        }
        match (call, answer) {
            (Call::Feed { .. } | Call::Hold { .. } | Call::Trim(_), Answer::Done) => {
                self.log.push(call)?;
            }
            _ => (),
        }
        Ok(())
    }
}
