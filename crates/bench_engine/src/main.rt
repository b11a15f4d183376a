// Measures the engine: the netlist of a deck is simulated over many random steps of its inputs, in stretches with trims in
// between. It prints what was counted, which is always the same for a deck.
#![tactic(auto)]

mod digest;
mod load;
mod random;
mod stop;

use crate::load::Load;
use crate::stop::Stop;
use deck::closing::read_netlist;
use engine::session::Session;
use events::record::EventRecord;
use netlist::closed::Netlist;
use std::process::ExitCode;
use std::rt::Runtime;
use std::{env, io};
use values::bit::Bit;

// How many stretches are made where none are told.
const STRETCHES: u32 = 3_000;

// How many records each line has: its base, and one for each change of a stretch, of which there are fewer.
const RECORDS: usize = 500;

// The number of stretches that a word spells.
fn read_stretches(word: String) -> Result<u32, Stop> {
    match word.parse() {
        Ok(stretches) => Ok(stretches),
        Err(_) => Err(Stop::Misuse(word)),
    }
}

// Reads the deck that is given on standard input.
fn read<R: Runtime + AllocGlobal>(rt: &R) -> Result<Netlist, Stop> {
    let mut bytes = Vec::new(rt.alloc());
    io::copy(&mut rt.reader(), &mut bytes)?;
    let (read, netlist) = read_netlist(&bytes);
    read?;
    Ok(netlist)
}

// Makes a session, simulates so many stretches, and reports.
fn measure<R: Runtime + AllocGlobal>(rt: &R, stretches: u32) -> Result<(), Stop> {
    let netlist = read(rt)?;
    let low = Bit(false);
    let starts = vec![in rt.alloc(); low; netlist.inputs()]?;
    let record = EventRecord {
        tick: 0,
        value: low,
    };
    let mut store = vec![in rt.alloc(); record; netlist.lines() * RECORDS]?;
    Session::check(&netlist, &store, &starts)?;
    let mut load = Load::new(Session::make(netlist, &mut store, &starts));
    load.stretches(stretches)?;
    load.report(rt)
}

fn run<R: Runtime + AllocGlobal>(rt: &R) -> Result<(), Stop> {
    match env::args(rt)?.nth(1) {
        None => measure(rt, STRETCHES),
        Some(word) if word.as_str() == "--help" => {
            println!(rt; "bench_engine [STRETCHES] < DECK")?;
            Ok(())
        }
        Some(word) => measure(rt, read_stretches(word)?),
    }
}

fn main(rt: HostRuntime) -> ExitCode {
    match run(&rt) {
        Ok(()) => ExitCode::SUCCESS,
        Err(stop) => {
            let _ = eprintln!(rt; "bench_engine: {stop}");
            ExitCode::FAILURE
        }
    }
}
