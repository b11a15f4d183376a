// The lister: the listing of a deck with its stimulus.
ghost use Rattle.std.specs.Prelude.{◌≡◌, ℕ, ◌+◌, ◌<◌, ◌≤◌, Ok, length, take, OnErr, MatchResult, ◌≢◌, List};
ghost use Rattle.deck.specs.Faults.{told};
ghost use Rattle.engine.specs.Answers.{numbered};
ghost use Rattle.engine.specs.Sessions.{KeepsItsOwn, lines_of};
ghost use Rattle.listing.specs.Given.{Gives, Whole, FirstFault};
ghost use Rattle.listing.specs.Listers.{machine_in, StandsFor, IsSessionOf, Contents};
ghost use Rattle.listing.specs.Listings.{change_rows, LineRows, RowsOf, Simulated, Listing, unknown, deck_records};
ghost use Rattle.listing.specs.Sinks.{Put};
ghost use Rattle.netlist.specs.Closed.{circuit};
ghost use Rattle.semantics.specs.Accounts.{Account};
ghost use Rattle.semantics.specs.Circuits as Circuits;
ghost use Rattle.semantics.specs.Machines.{IsLine};
ghost use Rattle.stimulus.specs.declared.entry.Entry.TheVariants.{End};
ghost use Rattle.values.specs.declared.ternary.Ternary.{Ternary};

use crate::rows::{change_row, line_row};
use crate::sink::Sink;
use deck::closing::read_netlist;
use deck::fault::{Fault, Layer};
use engine::session::Session;
use events::record::EventRecord;
use netlist::closed::Netlist;
use netlist::draft::Draft;
use netlist::refusal::Refusal;
use std::io;
use stimulus::entry::Entry;
use stimulus::reader::StimulusReader;
use values::ternary::Ternary;

// How many bytes are read at most.
pub const MOST_BYTES: usize = 32768;

// How many records the store has.
pub const RECORDS: usize = 4096;

// What a record of the store is before a session writes it.
const BLANK: EventRecord<Ternary> = EventRecord {
    tick: 0,
    value: Ternary::X,
};

// Gives a session what a record says; an end gives nothing.
fn give(session: &mut Session<Ternary>, entry: Entry) -> Result<(), Refusal>
    ensures keeps { KeepsItsOwn session.old session.new }
    ensures refused_alters_nothing { OnErr result (session.new ≡ session.old) }
    ensures ends { entry ≡ End → (result ≡ Ok tt) × (session.new ≡ session.old) }
    ensures answers { (entry ≢ End) → (a : Account Ternary) → StandsFor session.old a → (b : Account Ternary) × Gives (machine_in session.old) a entry (numbered result) b × StandsFor session.new b }
{
    match entry {
        Entry::Feed { line, tick, value } => session.feed(line, tick, value),
        Entry::Hold { line, tick } => session.hold(line, tick),
        Entry::End => Ok(()),
    }
}

// Gives a session all of a stimulus, up to the first fault.
fn give_all(session: &mut Session<Ternary>, stimulus: &[u8], first: usize) -> Result<(), Fault>
    requires { first + length stimulus.now ≤ 18446744073709551615 }
    ensures keeps { KeepsItsOwn session.old session.new }
    ensures answers { (a : Account Ternary) → StandsFor session.old a → (b : Account Ternary) × StandsFor session.new b × MatchResult result (λ _. Whole (machine_in session.old) a stimulus.now b) (λ f. FirstFault (machine_in session.old) a (Circuits.lines (lines_of session.old).circuit) first stimulus.now (told f)) }
{
    let mut reader = StimulusReader::new(stimulus, first, session.netlist().lines());
    while let Some(taken) = reader.next()? {
        if let Err(refusal) = give(session, taken.entry) {
            return Err(Fault {
                refusal,
                layer: Layer::Session,
                record: taken.record,
                column: 1,
            });
        }
    }
    Ok(())
}

// Lists so many changes of a line.
fn list_changes<S: Sink>(
    session: &Session<Ternary>,
    line: u32,
    kept: usize,
    out: &mut S,
) -> io::Result<()>
    ensures { (a : Account Ternary) → StandsFor session.now a → (ticks : List ℕ) → Contents (machine_in session.now) a line ticks kept → Put S.contents S.Refuses result out.old out.new (change_rows (machine_in session.now) a line ticks) }
{
    for k in 0..kept {
        let Ok(change) = session.event(line, k) else {
            return Ok(());
        };
        out.put(&change_row(change.tick, change.value))?;
    }
    Ok(())
}

// Lists a line: how far it is settled, and its changes.
fn list_line<S: Sink>(session: &Session<Ternary>, line: u32, out: &mut S) -> io::Result<()>
    ensures { (a : Account Ternary) → StandsFor session.now a → IsLine (machine_in session.now).topology line → (rows : List ℕ) → LineRows (machine_in session.now) a line rows → Put S.contents S.Refuses result out.old out.new rows }
{
    let Ok(state) = session.state(line) else {
        return Ok(());
    };
    out.put(&line_row(line, state.settled, state.kept))?;
    list_changes(session, line, state.kept, out)
}

// Lists the outputs, in their order.
fn list_outputs<S: Sink>(session: &Session<Ternary>, out: &mut S) -> io::Result<()>
    ensures { (a : Account Ternary) → StandsFor session.now a → (text : List ℕ) → RowsOf (machine_in session.now) a (lines_of session.now).circuit.outputs text → Put S.contents S.Refuses result out.old out.new text }
{
    for place in 0..session.netlist().outputs() {
        let Some(line) = session.netlist().output(place) else {
            return Ok(());
        };
        list_line(session, line, out)?;
    }
    Ok(())
}

// Makes a session in the lister's store, whose inputs begin with X.
fn make_session<'a>(netlist: Netlist, store: &'a mut [EventRecord<Ternary>]) -> Session<'a, Ternary>
    requires some_lines { 0 < Circuits.lines (circuit netlist) }
    requires its_store { length store.old ≡ 4096 }
    ensures of_the_netlist { IsSessionOf (circuit netlist) result }
    ensures begins { StandsFor result unknown }
{
    let inputs = netlist.inputs();
    let starts = [Ternary::X; Draft::MOST_INPUTS];
    Session::make(netlist, store, &starts[..inputs])
}

// Simulates a netlist with its stimulus, and lists the outputs, or the first fault.
fn simulate<S: Sink>(netlist: Netlist, stimulus: &[u8], out: &mut S) -> io::Result<()>
    requires some_lines { 0 < Circuits.lines (circuit netlist) }
    requires few_bytes { length stimulus.now ≤ 32768 }
    ensures { (text : List ℕ) × Simulated (circuit netlist) (deck_records (circuit netlist) + 1) stimulus.now text × Put S.contents S.Refuses result out.old out.new text }
{
    // One after the deck's header, its lines, its outputs and its end.
    let first = netlist.lines() + netlist.outputs() + 3;
    let mut store = [BLANK; RECORDS];
    let mut session = make_session(netlist, &mut store);
    if let Err(fault) = give_all(&mut session, stimulus, first) {
        return out.put(&fault.row());
    }
    let _takes = session.run_to_rest();
    list_outputs(&session, out)
}

// Lists a deck and its stimulus: puts the listing of the bytes, of `MOST_BYTES` at most, into a sink. Nothing but the bytes
// decides what is listed, and an error is the sink's.
pub fn list<S: Sink>(bytes: &[u8], out: &mut S) -> io::Result<()>
    ensures lists { (text : List ℕ) × Listing (take 32768 bytes.now) text × Put S.contents S.Refuses result out.old out.new text }
    ensures only { (text other : List ℕ) → Listing (take 32768 bytes.now) text → Listing (take 32768 bytes.now) other → text ≡ other }
{
    let bytes = &bytes[..bytes.len().min(MOST_BYTES)];
    let (outcome, netlist) = read_netlist(bytes);
    match outcome {
        Ok(used) => simulate(netlist, &bytes[used..], out),
        Err(fault) => out.put(&fault.row()),
    }
}
