// Closing a draft, which spends it.
ghost use Rattle.std.specs.Prelude.{◌≡◌, ℕ, ◌+◌, ◌<◌, true, ◌≢◌, slice_index_or};
ghost use Rattle.netlist.specs.Closed.{circuit};
ghost use Rattle.netlist.specs.Drafts.{sheet, complete};
ghost use Rattle.netlist.specs.GateRow.{empty};
ghost use Rattle.netlist.specs.Gates.{nothing};
ghost use Rattle.netlist.specs.Judging.{Judged, AllReached};
ghost use Rattle.netlist.specs.Refusals.{answer};
ghost use Rattle.netlist.specs.Walks.{Looped};

use super::Draft;
use super::search::LineRange;
use crate::closed::Netlist;
use crate::refusal::Refusal;
use crate::size::Size;

impl Draft {
    // Answers what judging answers, and gives the netlist: the draft's where nothing is refused, else the
    // empty one. A pair, since a netlist comes either way.
    pub fn close(self) -> (Result<(), Refusal>, Netlist)
        ensures answers { Judged (sheet self) (answer result.0) }
        ensures keeps { answer result.0 ≡ 0 → circuit result.1 ≡ (sheet self).circuit }
        ensures refused_is_empty { (answer result.0 ≢ 0) → circuit result.1 ≡ nothing }
    {
        match self.judge() {
            Ok(()) => (Ok(()), self.seal()),
            Err(refusal) => (Err(refusal), Netlist::empty()),
        }
    }

    // Marks the looped gates of a draft that was judged sound, and makes the netlist of it.
    fn seal(mut self) -> Netlist
        requires whole { complete (sheet self) ≡ true }
        requires reached { AllReached (sheet self).circuit }
        ensures { circuit result ≡ (sheet self).circuit }
    {
        self.mark_loops();
        let Draft {
            size,
            drawn,
            named,
            rows,
            ends,
        } = self;
        Netlist {
            size: Size {
                inputs: size.inputs,
                gates: drawn,
                outputs: named,
            },
            rows,
            ends,
        }
    }

    // Marks the gates whose line leads back to itself.
    fn mark_loops(&mut self)
        ensures same { sheet self.new ≡ sheet self.old }
        ensures marked_looped { (k : ℕ) → k < self.new.drawn → (slice_index_or self.new.rows k empty).looped ≡ true → Looped (sheet self.old).circuit (self.new.size.inputs + 1 + k) }
        ensures looped_marked { (k : ℕ) → k < self.new.drawn → Looped (sheet self.old).circuit (self.new.size.inputs + 1 + k) → (slice_index_or self.new.rows k empty).looped ≡ true }
    {
        // By place: each search reads the whole draft, so no row is lent while it runs.
        for place in 0..self.drawn {
            let line = self.size.inputs + 1 + place;
            let itself = LineRange {
                first: line,
                last: line,
            };
            let looped = self.leads(itself, line as u32);
            self.rows[place].mark(looped);
        }
    }
}
