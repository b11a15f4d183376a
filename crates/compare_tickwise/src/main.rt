// Compares the engine with tickwise, a simulator by a table of all values: netlists and jobs at random are done in both, and
// every answer, every store and every distance must be the same.
#![tactic(auto)]

mod again;
mod answer;
mod asking;
mod call;
mod choice;
mod counts;
mod drafts;
mod drawing;
mod filled;
mod job;
mod kinds;
mod level;
mod netlists;
mod options;
mod pair;
mod random;
mod redone;
mod related;
mod report;
mod shape;
mod stop;
mod stores;
mod survey;
mod tie;
mod trial;

use crate::answer::{Answer, Difference};
use crate::counts::Counts;
use crate::drafts::{Closed, Drafts, try_edges};
use crate::job::simulate;
use crate::level::System;
use crate::netlists::{compare_netlist, count_gates};
use crate::options::Options;
use crate::random::Random;
use crate::shape::Shape;
use crate::stop::Stop;
use crate::trial::Trial;
use std::io;
use std::process::ExitCode;
use std::rt::Runtime;
use tickwise::circuit::Circuit;
use tickwise::three::Three;
use tickwise::two::Two;
use tickwise::word::Word;
use values::bit::Bit;
use values::lanes::Lanes;
use values::ternary::Ternary;

// How many differences are told before the program ends.
const MOST_DIFFERENCES: u64 = 10;

// The system of a netlist: each in turn.
fn system_of(seed: u64) -> System {
    match seed % 3 {
        0 => System::Two,
        1 => System::Three,
        _ => System::Lanes,
    }
}

// Draws a netlist, and simulates it. Of one that was refused, the closed netlist has no lines.
fn compare_one(trial: &mut Trial, system: System) -> Result<(), Stop> {
    try_edges(trial)?;
    let mut shape = Shape::draw(&mut trial.random);
    shape.spoil(&mut trial.random);
    let mut drafts = Drafts::open(trial, &shape)?;
    drafts.draw(trial, &shape)?;
    let Closed {
        answer,
        netlist,
        circuit,
    } = drafts.close(trial)?;
    let circuit = if answer == Answer::Done {
        circuit
    } else {
        Circuit::empty(trial.alloc)
    };
    let looped = compare_netlist(trial.alloc, &netlist, &circuit)?;
    count_gates(&mut trial.counts, &circuit, looped);
    let pace = shape.pace;
    match system {
        System::Two => simulate::<Bit, Two>(trial, system, pace, &circuit, netlist),
        System::Three => simulate::<Ternary, Three>(trial, system, pace, &circuit, netlist),
        System::Lanes => simulate::<Lanes, Word>(trial, system, pace, &circuit, netlist),
    }
}

// Tells a difference. The netlist is found again as the first of its own seed.
fn tell_difference(rt: &impl Print, netlist: u64, seed: u64, found: &Difference) -> io::Result<()> {
    let system = system_of(seed).name();
    println!(rt; "netlist {netlist}, seed {seed}, {system}: {found}")
}

// Compares so many netlists, or fewer where many differences are found. Tells how many are.
fn compare_all<R: Print + AllocGlobal>(rt: &R, options: Options) -> Result<u64, Stop> {
    let mut differences: u64 = 0;
    let mut trial = Trial {
        alloc: rt.alloc(),
        random: Random::new(0),
        counts: Counts::default(),
    };
    for netlist in 0..options.netlists {
        let seed = options.seed.wrapping_add(netlist);
        trial.random = Random::new(seed);
        match compare_one(&mut trial, system_of(seed)) {
            Err(Stop::Differs(found)) => {
                differences = differences.saturating_add(1);
                tell_difference(rt, netlist, seed, &found)?;
            }
            done => done?,
        }
        if differences == MOST_DIFFERENCES {
            break;
        }
    }
    report::tell(rt, &trial.counts)?;
    Ok(differences)
}

fn run<R: Runtime + AllocGlobal>(rt: &R) -> Result<ExitCode, Stop> {
    let options = options::read(rt)?;
    let Options { seed, netlists } = options;
    println!(rt; "{netlists} netlists, the first of seed {seed}")?;
    let differences = compare_all(rt, options)?;
    println!(rt; "{differences} differences")?;
    if differences > 0 {
        return Ok(ExitCode::FAILURE);
    }
    Ok(ExitCode::SUCCESS)
}

fn main(rt: HostRuntime) -> ExitCode {
    match run(&rt) {
        Ok(status) => status,
        Err(stop) => {
            let _ = eprintln!(rt; "compare_tickwise: {stop}");
            ExitCode::FAILURE
        }
    }
}
