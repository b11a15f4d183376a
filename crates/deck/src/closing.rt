// Reading and closing a deck.
ghost use Rattle.std.specs.Prelude.{◌≡◌, MatchResult};
ghost use Rattle.netlist.specs.Closed.{circuit};
ghost use Rattle.netlist.specs.Drafts.{sheet};
ghost use Rattle.netlist.specs.Gates.{Circuit};
ghost use Rattle.netlist.specs.Judging.{AllReached};
ghost use Rattle.deck.specs.Closing.{ClosedOutcome, FreeFault, Passed};
ghost use Rattle.deck.specs.Faults.{told};
ghost use Rattle.deck.specs.Outcomes.{Answer, answer_of};

use crate::fault::{Fault, Layer};
use crate::reader::reading::read;
use netlist::closed::Netlist;
use netlist::draft::Draft;
use netlist::refusal::Refusal;

// A gate that no input reaches is a fault of the netlist, at the gate's own record: the header is the first
// record, and line n stands in the record after the n-th.
pub fn check_reached(draft: &Draft) -> Result<(), Fault>
    ensures { MatchResult result (λ _. AllReached (sheet draft.now).circuit) (λ f. FreeFault (sheet draft.now).circuit (told f)) }
{
    match draft.unreached() {
        Some(line) => Err(Fault {
            refusal: Refusal::Free,
            layer: Layer::Netlist,
            record: line as usize + 1,
            column: 1,
        }),
        None => Ok(()),
    }
}

// Passes on a fault of the reading, else checks the netlist.
fn check(outcome: Result<usize, Fault>, draft: &Draft) -> Result<usize, Fault>
    ensures { Passed outcome (sheet draft.now).circuit result }
{
    let used = outcome?;
    check_reached(draft)?;
    Ok(used)
}

// Reads a deck and closes its draft: the bytes used and the netlist, or the first fault and the empty netlist. A pair,
// since a netlist comes either way.
pub fn read_netlist(bytes: &[u8]) -> (Result<usize, Fault>, Netlist)
    ensures comes_to { ClosedOutcome bytes.now (answer_of result.0) (circuit result.1) }
    ensures only { (a : Answer) (c : Circuit) → ClosedOutcome bytes.now a c → (a ≡ answer_of result.0) × (c ≡ circuit result.1) }
{
    let (outcome, draft) = read(bytes);
    let answer = check(outcome, &draft);
    let (_, netlist) = draft.close();
    (answer, netlist)
}
