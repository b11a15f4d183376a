// Checks a deck from standard input, and prints each action that it takes.
#![tactic(auto)]

ghost use Rattle.std.specs.Prelude.{◌≤◌, length, IfOk};

use deck::closing::check_reached;
use deck::entry::Entry;
use deck::fault::Fault;
use deck::reader::DeckReader;
use netlist::draft::Draft;
use std::io;
use std::io::{Read, Write};
use thiserror::Error;

// What lies beyond is not read.
const MOST_BYTES: usize = 32_768;

// Why a check ends early: a fault of the deck, or an error of reading or printing.
#[derive(Debug, Drop, Error)]
enum Stop {
    #[error("{0}")]
    Fault(#[from] Fault),
    #[error("{0}")]
    Io(#[from] io::Error),
}

// Reads until the buffer is full or the input ends, and says how many bytes came. Each read asks for as much as there is room
// for: what a read of a socket that keeps messages apart does not ask for is lost.
fn fill(input: &mut impl Read, buffer: &mut [u8]) -> io::Result<usize>
    ensures { IfOk result (λ n. n ≤ length buffer.old) }
{
    let mut filled = 0;
    for _ in 0..MOST_BYTES {
        if filled >= buffer.len() {
            break;
        }
        let count = input.read(&mut buffer[filled..])?;
        if count == 0 {
            break;
        }
        filled += count;
    }
    Ok(filled)
}

// Takes the records of a deck one by one, and answers the draft. Records and bytes are counted here, since both counts
// are printed.
fn take_records(rt: &impl Print, bytes: &[u8]) -> Result<Draft, Stop> {
    let mut reader = DeckReader::new();
    let mut used = 0;
    for number in 1..MOST_BYTES {
        let taken = reader.next(&bytes[used..])?;
        let entry = taken.entry;
        println!(rt; "record {number}: {entry}")?;
        used += taken.bytes;
        if let Entry::End = entry {
            break;
        }
    }
    println!(rt; "read: {used} bytes")?;
    Ok(reader.finish())
}

// Judges and closes a draft.
fn close(rt: &impl Print, draft: Draft) -> Result<(), Stop> {
    if let Err(fault) = check_reached(&draft) {
        let record = fault.record;
        println!(rt; "judged: no input reaches the gate of record {record}")?;
        return Err(fault.into());
    }
    println!(rt; "judged: an input reaches every gate")?;
    let (_, netlist) = draft.close();
    let lines = netlist.lines();
    let gates = netlist.gates();
    let outputs = netlist.outputs();
    let looped = netlist.looped_lines();
    println!(rt; "closed: {lines} lines, {gates} gates, {outputs} outputs, {looped} looped lines")?;
    Ok(())
}

fn check(rt: &impl Print, bytes: &[u8]) -> Result<(), Stop> {
    let draft = take_records(rt, bytes)?;
    close(rt, draft)
}

fn main(rt: HostRuntime) -> io::Result<()> {
    let mut buffer = [0; MOST_BYTES];
    let count = fill(&mut rt.stdin(), &mut buffer)?;
    match check(&rt, &buffer[..count]) {
        Ok(()) => Ok(()),
        Err(Stop::Fault(fault)) => rt.stdout().write_all(&fault.row()),
        Err(Stop::Io(error)) => Err(error),
    }
}
