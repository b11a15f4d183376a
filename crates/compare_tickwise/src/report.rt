// What was done, in numbers.
use crate::call::Name;
use crate::counts::{Counts, Tally};
use crate::kinds::{FUNCTIONS, kind_of};
use crate::level::System;
use std::io;

fn tell_sessions(rt: &impl Print, counts: &Counts) -> io::Result<()> {
    print!(rt; "sessions:")?;
    for (system, sessions) in System::ALL.iter().zip(counts.sessions.iter()) {
        let name = system.name();
        print!(rt; " {sessions} in {name};")?;
    }
    let full = counts.full;
    println!(rt; " {full} lines were full at the end")
}

fn tell_gates(rt: &impl Print, counts: &Counts) -> io::Result<()> {
    print!(rt; "gates of closed netlists:")?;
    for (function, gates) in FUNCTIONS.iter().zip(counts.functions.iter()) {
        let kind = kind_of(*function);
        print!(rt; " {gates} {kind}")?;
    }
    println!(rt; "")?;
    print!(rt; "  that read 1 to 4 lines:")?;
    for gates in counts.reads.iter().skip(1) {
        print!(rt; " {gates}")?;
    }
    let Counts {
        looped,
        reading_themselves,
        slow,
        slowest,
        ..
    } = counts;
    println!(rt; "; {looped} looped, {reading_themselves} read themselves")?;
    println!(rt; "  with delays of 100 and more: {slow}; of 65535: {slowest}")?;
    let Counts { wide, widest, .. } = counts;
    println!(rt; "  {wide} netlists of more than 64 lines, {widest} of these of more than 256")
}

fn tell_tally(rt: &impl Print, name: Name, tally: &Tally) -> io::Result<()> {
    let word = name.word();
    let accepted = tally.accepted;
    print!(rt; "  {word:<11} {accepted:>6}")?;
    for (number, refused) in tally.refused.iter().enumerate() {
        if *refused > 0 {
            print!(rt; ", refused {number}: {refused}")?;
        }
    }
    println!(rt; "")
}

fn tell_calls(rt: &impl Print, counts: &Counts) -> io::Result<()> {
    println!(rt; "calls, accepted and refused:")?;
    for (name, tally) in Name::ALL.iter().zip(counts.tallies.iter()) {
        tell_tally(rt, *name, tally)?;
    }
    Ok(())
}

fn tell_compared(rt: &impl Print, counts: &Counts) -> io::Result<()> {
    let Counts {
        values,
        changes,
        distances,
        ..
    } = counts;
    println!(rt;
        "compared: {values} values, {changes} changes, {distances} settled times with distances"
    )?;
    let Counts {
        stores,
        records,
        untouched,
        ..
    } = counts;
    println!(rt; "  {stores} stores of {records} records, {untouched} of them beyond the lines")?;
    let Counts {
        drafts,
        kept_netlists,
        ..
    } = counts;
    println!(rt; "  {drafts} drafts between additions, {kept_netlists} netlists after all calls")
}

fn tell_others(rt: &impl Print, counts: &Counts) -> io::Result<()> {
    let Counts {
        again,
        like,
        unlike,
        ..
    } = counts;
    println!(rt;
        "{again} jobs done again; before the end {like} stores were the same, and {unlike} were not"
    )?;
    let Counts {
        tied,
        untied,
        untold,
        apart,
        ..
    } = counts;
    println!(rt; "with bits: {tied} values tied, {untied} not tied, {untold} not told")?;
    println!(rt; "  {apart} of the last were refused by both sessions, for two reasons")
}

pub fn tell(rt: &impl Print, counts: &Counts) -> io::Result<()> {
    tell_sessions(rt, counts)?;
    tell_gates(rt, counts)?;
    tell_calls(rt, counts)?;
    tell_compared(rt, counts)?;
    tell_others(rt, counts)
}
