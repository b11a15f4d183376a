// A closed netlist compared with its circuit.
use crate::answer::{Answer, Asked, done_or_refused};
use crate::counts::{Counts, count};
use crate::kinds::kind_of;
use crate::shape::MOST_DELAY;
use crate::stop::{Stop, compare};
use netlist::closed::Netlist;
use netlist::draft::Draft;
use netlist::size::Size;
use std::alloc::Global;
use tickwise::circuit::{Circuit, Gate};
use tickwise::walks::Walks;

const SLOW: u32 = 100;

// Beyond how many lines netlists are counted as wide, and as the widest.
const WIDE: u32 = 64;

const WIDEST: u32 = 256;

// How many lines a gate reads at most.
const MOST_READS: usize = 4;

fn compare_sizes(netlist: &Netlist, circuit: &Circuit) -> Result<(), Stop> {
    let lines = Answer::Count(circuit.lines() as usize);
    compare(Asked::Lines, Answer::Count(netlist.lines()), lines)?;
    let inputs = Answer::Count(circuit.inputs);
    compare(Asked::Inputs, Answer::Count(netlist.inputs()), inputs)?;
    let gates = Answer::Count(circuit.gates.len());
    compare(Asked::Gates, Answer::Count(netlist.gates()), gates)?;
    let outputs = Answer::Count(circuit.outputs.len());
    compare(Asked::Outputs, Answer::Count(netlist.outputs()), outputs)
}

// The gate on a line, and the lines that it reads.
fn compare_gate(netlist: &Netlist, circuit: &Circuit, line: u32) -> Result<(), Stop> {
    let row = netlist.row(line);
    let gate = circuit.gate(line);
    let answer = Answer::Gate(row.map(|row| (row.kind, row.delay)));
    let expected = match gate {
        None => None,
        Some(gate) => Some((kind_of(gate.function), gate.delay)),
    };
    compare(Asked::Gate(line), answer, Answer::Gate(expected))?;
    for place in 0..=MOST_READS {
        let read = match &row {
            None => None,
            Some(row) => row.reads().get(place).copied(),
        };
        let expected = match gate {
            None => None,
            Some(gate) => gate.reads.get(place).copied(),
        };
        compare(
            Asked::Read { line, place },
            Answer::Line(read),
            Answer::Line(expected),
        )?;
    }
    Ok(())
}

fn count_gate(counts: &mut Counts, gate: &Gate, line: u32) {
    counts.note_function(gate.function);
    counts.note_reads(gate.reads.len());
    if gate.delay >= SLOW {
        count(&mut counts.slow);
    }
    if gate.delay == MOST_DELAY {
        count(&mut counts.slowest);
    }
    if gate.reads.iter().any(|read| *read == line) {
        count(&mut counts.reading_themselves);
    }
}

// Whether a line is looped, as the netlist tells it and as the row of its gate does.
fn compare_loop(netlist: &Netlist, line: u32, is_looped: bool) -> Result<(), Stop> {
    compare(
        Asked::Looped(line),
        Answer::Truth(netlist.looped(line)),
        Answer::Truth(is_looped),
    )?;
    let is_marked = netlist.row(line).is_some_and(|row| row.looped);
    compare(
        Asked::Marked(line),
        Answer::Truth(is_marked),
        Answer::Truth(is_looped),
    )
}

// Which lines are looped, and how many, which it tells.
fn compare_loops(alloc: Global, netlist: &Netlist, circuit: &Circuit) -> Result<usize, Stop> {
    let walks = Walks::new(alloc, circuit)?;
    let mut looped: usize = 0;
    for line in 0..=circuit.lines().saturating_add(1) {
        let is_looped = walks.is_looped(line);
        compare_loop(netlist, line, is_looped)?;
        if is_looped {
            looped = looped.saturating_add(1);
        }
    }
    let answer = Answer::Count(netlist.looped_lines());
    compare(Asked::LoopedLines, answer, Answer::Count(looped))?;
    Ok(looped)
}

fn compare_outputs(netlist: &Netlist, circuit: &Circuit) -> Result<(), Stop> {
    for place in 0..=circuit.outputs.len() {
        let expected = circuit.outputs.get(place).copied();
        let answer = Answer::Line(netlist.output(place));
        compare(Asked::Output(place), answer, Answer::Line(expected))?;
    }
    Ok(())
}

// Counts the gates of a closed netlist.
pub fn count_gates(counts: &mut Counts, circuit: &Circuit, looped: usize) {
    counts.looped = counts.looped.saturating_add(looped as u64);
    if circuit.lines() > WIDE {
        count(&mut counts.wide);
    }
    if circuit.lines() > WIDEST {
        count(&mut counts.widest);
    }
    for line in 1..=circuit.lines() {
        if let Some(gate) = circuit.gate(line) {
            count_gate(counts, gate, line);
        }
    }
}

// All that can be asked of a netlist. Tells how many lines are looped.
pub fn compare_netlist(alloc: Global, netlist: &Netlist, circuit: &Circuit) -> Result<usize, Stop> {
    compare_sizes(netlist, circuit)?;
    compare_outputs(netlist, circuit)?;
    for line in 0..=circuit.lines().saturating_add(1) {
        compare_gate(netlist, circuit, line)?;
    }
    compare_loops(alloc, netlist, circuit)
}

// The netlist of a circuit, anew for each session.
pub fn netlist_of(circuit: &Circuit) -> Result<Netlist, Stop> {
    let mut draft = Draft::new(Size {
        inputs: circuit.inputs,
        gates: circuit.gates.len(),
        outputs: circuit.outputs.len(),
    });
    for gate in &circuit.gates {
        let added = draft.add_gate(kind_of(gate.function), gate.delay, &gate.reads);
        compare(Asked::AddGate(0), done_or_refused(added), Answer::Done)?;
    }
    for line in &circuit.outputs {
        let added = draft.add_output(*line);
        compare(Asked::AddOutput(0), done_or_refused(added), Answer::Done)?;
    }
    let (answer, netlist) = draft.close();
    compare(Asked::Closing, done_or_refused(answer), Answer::Done)?;
    Ok(netlist)
}
