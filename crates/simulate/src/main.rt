// Simulates a deck under its stimulus: tells each action as it takes it, lists the changes of the outputs, draws them, and
// does the same job again, cut and ordered otherwise, to compare both.
#![tactic(auto)]

mod carrying;
mod comparison;
mod desk;
mod explanation;
mod job;
mod narrator;
mod options;
mod report;
mod source;
mod stop;
mod work;

use crate::job::Job;
use crate::narrator::Narrator;
use crate::options::{HELP, Options, System};
use crate::source::Source;
use crate::stop::Stop;
use crate::work::do_job;
use deck::fault::Fault;
use netlist::refusal::Refusal;
use std::io;
use std::io::Write;
use std::process::ExitCode;
use std::rt::Runtime;
use values::bit::Bit;
use values::lanes::Lanes;
use values::ternary::Ternary;

// What is added to the words of a fault where the bytes that are not read may be what is missing.
const MORE: &str = "; more bytes follow, which are not read";

// Tells how many bytes were read.
fn tell_read<R: Print + AllocGlobal>(narrator: &Narrator<R>, source: &Source) -> io::Result<()> {
    let length = source.bytes.len();
    if source.more {
        narrator.tell(format_args!("reads the first {length} bytes; more follow and are not read"))
    } else {
        narrator.tell(format_args!("reads {length} bytes"))
    }
}

// Reads the deck and does the job.
fn do_work<R: Runtime + AllocGlobal>(
    narrator: &Narrator<R>,
    bytes: &[u8],
    options: &Options,
) -> Result<(), Stop> {
    let job = Job::read(narrator, bytes, options.records)?;
    match options.system {
        System::Two => do_job::<Bit, R>(narrator, &job, options),
        System::Three => do_job::<Ternary, R>(narrator, &job, options),
        System::Lanes => do_job::<Lanes, R>(narrator, &job, options),
    }
}

fn simulate<R: Runtime + AllocGlobal>(rt: &R, options: &Options) -> Result<(), Stop> {
    let narrator = Narrator::new(rt, options.quiet);
    let source = source::read(rt, options)?;
    tell_read(&narrator, &source)?;
    match do_work(&narrator, &source.bytes, options) {
        Err(Stop::Fault(fault)) if source.more && fault.refusal == Refusal::Cut => {
            Err(Stop::CutOff(fault))
        }
        done => done,
    }
}

// Tells a fault in words and by its row, or by its row alone.
fn tell_fault<R: Runtime>(rt: &R, quiet: bool, fault: &Fault, more: &str) -> io::Result<()> {
    if !quiet {
        println!(rt; "fault: {fault}: {}{more}", explanation::of(fault.refusal))?;
    }
    io::writer(rt).write_all(&fault.row())
}

// Tells why the program ends early: a fault on standard output, anything else on standard error.
fn tell<R: Runtime>(rt: &R, quiet: bool, stop: &Stop) -> io::Result<()> {
    match stop {
        Stop::Fault(fault) => tell_fault(rt, quiet, fault, ""),
        Stop::CutOff(fault) => tell_fault(rt, quiet, fault, MORE),
        stop => eprintln!(rt; "simulate: {stop}"),
    }
}

// Does what the options say.
fn run<R: Runtime + AllocGlobal>(rt: &R, options: &Options) -> Result<(), Stop> {
    if options.help {
        Ok(rt.print(HELP)?)
    } else {
        simulate(rt, options)
    }
}

// The status of the program, after telling why it ends early if it does.
fn end<R: Runtime>(rt: &R, quiet: bool, done: Result<(), Stop>) -> ExitCode {
    match done {
        Ok(()) => ExitCode::SUCCESS,
        Err(stop) => {
            if let Err(error) = tell(rt, quiet, &stop) {
                let _ = eprintln!(rt; "simulate: {}", Stop::Output(error));
            }
            ExitCode::FAILURE
        }
    }
}

fn main(rt: HostRuntime) -> ExitCode {
    match options::read(&rt) {
        Ok(options) => end(&rt, options.quiet, run(&rt, &options)),
        Err(stop) => end(&rt, false, Err(stop)),
    }
}
