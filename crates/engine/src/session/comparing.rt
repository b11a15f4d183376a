// Comparing sessions.
ghost use Rattle.std.specs.Prelude.{◌≡◌, Decides, map};
ghost use Rattle.engine.specs.Stores.{seen};

use crate::session::Session;
use events::record::EventRecord;
use netlist::refusal::Refusal;
use semantics::ties::kept_relations_tie_lines;
use values::relation::Relation;
use values::system::ValueSystem;

// Whether two lists of records have equal ticks, and values that mean the same.
fn same_records<V: ValueSystem>(left: &[EventRecord<V>], right: &[EventRecord<V>]) -> bool
    ensures { Decides result (map (seen V.meaning) left.now ≡ map (seen V.meaning) right.now) }
{
    if left.len() != right.len() {
        return false;
    }
    for place in 0..left.len() {
        if left[place].tick != right[place].tick {
            return false;
        }
        if !left[place].value.same(right[place].value) {
            return false;
        }
    }
    true
}

impl<'a, V: ValueSystem> Session<'a, V> {
    ghost use Rattle.std.specs.Prelude.{take, true, false, Ok, Err, ◌≢◌};
    ghost use Rattle.engine.specs.Answers.{numbered};
    ghost use Rattle.engine.specs.Comparing.{store_of, SameCircuitAndRoom, AnswerAlike, Tying};
    ghost use Rattle.engine.specs.Lines.{extent};
    ghost use Rattle.engine.specs.Sessions.{lines_of, HasNoLines, machine_in, StandsFor};
    ghost use Rattle.semantics.specs.Accounts.{Account};
    ghost use Rattle.semantics.specs.Comparisons.{Alike, Agree, GivenTied, LinesTied};
    ghost use Rattle.semantics.specs.Moves.{Rest};
    ghost use Rattle.values.specs.Relations.{Tied};

    // The records of the lines.
    fn records(&self) -> &[EventRecord<V>]
        ensures { result.now ≡ take (extent (lines_of self.now)) self.now.store.now }
    {
        &self.store[..self.lines.netlist.lines() * self.lines.stride]
    }

    // Whether two sessions have equal stores: equal ticks, and values that mean the same. At rest they have, if they have one
    // circuit and room and were given the same, however their logs were cut and in whatever order gates were taken; and they
    // answer the same. Sessions that were given otherwise may have equal stores too.
    pub fn same_store(&self, other: &Session<V>) -> bool
        ensures decides { Decides result (store_of V.meaning self.now ≡ store_of V.meaning other.now) }
        ensures alike_rests_agree { SameCircuitAndRoom self.now other.now → (a b : Account V.Sense) → StandsFor V.meaning V.system self.now a → StandsFor V.meaning V.system other.now b → Rest (machine_in V.system self.now) a → Rest (machine_in V.system other.now) b → Alike (machine_in V.system self.now) a b → (result ≡ true) × Agree (machine_in V.system self.now) a b × AnswerAlike (machine_in V.system self.now) (machine_in V.system other.now) a b }
    {
        same_records(self.records(), other.records())
    }

    // Whether a relation ties the values of a line at a tick in two sessions. A kept relation that ties what both were given
    // ties all lines, at every tick that is settled in both.
    pub fn tied<W: ValueSystem, R: Relation<V, W>>(
        &self,
        relation: &R,
        other: &Session<W>,
        line: u32,
        tick: u32,
    ) -> Result<bool, Refusal>
        ensures without_lines { HasNoLines self.now → numbered result ≡ Err 12 }
        ensures answers { (a : Account V.Sense) (b : Account W.Sense) → StandsFor V.meaning V.system self.now a → StandsFor W.meaning W.system other.now b → Tying (machine_in V.system self.now) (machine_in W.system other.now) (Tied V.meaning W.meaning (R.Ties relation.now)) a b line tick (numbered result) }
        ensures kept_relations_tie_lines { (lines_of self.now).circuit ≡ (lines_of other.now).circuit → (a : Account V.Sense) (b : Account W.Sense) → StandsFor V.meaning V.system self.now a → StandsFor W.meaning W.system other.now b → GivenTied (machine_in V.system self.now) (machine_in W.system other.now) (Tied V.meaning W.meaning (R.Ties relation.now)) a b → LinesTied (machine_in V.system self.now) (machine_in W.system other.now) (Tied V.meaning W.meaning (R.Ties relation.now)) a b × (result ≢ Ok false) }
    {
        // That a kept relation ties all lines is the promise of this call.
        let _ties_start = kept_relations_tie_lines::<V, W, R>(relation);
        let left = self.value(line, tick)?;
        let right = other.value(line, tick)?;
        Ok(relation.ties(left, right))
    }
}
