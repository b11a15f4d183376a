// The values of all lines at all ticks.
use crate::circuit::{Circuit, Gate, place};
use crate::value::Value;
use crate::walks::Walks;
use std::alloc::{AllocError, Global};

// What each line begins with; what each input is given, a value for each tick below its end; and the value of each line at
// each tick so far.
#[derive(Drop)]
pub(crate) struct Table<V> {
    initial: Vec<V>,
    given: Vec<Vec<V>>,
    columns: Vec<Vec<V>>,
    filled: u32,
}

// What a line begins with, if that is known yet.
fn known<V: Value>(initial: &[Option<V>], line: u32) -> Option<V> {
    initial.get(place(line)).copied().flatten()
}

// What a gate begins with, where that is known of all lines that it reads.
fn begins<V: Value>(gate: &Gate, initial: &[Option<V>]) -> Option<V> {
    let mut folded = None;
    for line in &gate.reads {
        folded = Some(gate.function.fold(folded, known(initial, *line)?));
    }
    Some(gate.function.finish(folded?))
}

// What is known at first: inputs begin with what is given, looped lines with START.
fn first<V: Value>(
    alloc: Global,
    circuit: &Circuit,
    starts: &[V],
) -> Result<Vec<Option<V>>, AllocError> {
    let walks = Walks::new(alloc, circuit)?;
    let mut initial = Vec::new(alloc);
    for line in 1..=circuit.lines() {
        let begins = if circuit.is_input(line) {
            starts.get(place(line)).copied()
        } else if walks.is_looped(line) {
            Some(V::START)
        } else {
            None
        };
        initial.push(begins)?;
    }
    Ok(initial)
}

// Finds what gates begin with, where that follows from what is known.
fn learn<V: Value>(circuit: &Circuit, initial: &mut Vec<Option<V>>) {
    for line in 1..=circuit.lines() {
        if let Some(gate) = circuit.gate(line) {
            if known(initial, line).is_none() {
                let begins = begins(gate, initial);
                if let Some(kept) = initial.get_mut(place(line)) {
                    *kept = begins;
                }
            }
        }
    }
}

// What each line begins with. A walk that has no looped line in it is shorter than there are lines.
fn initial_values<V: Value>(
    alloc: Global,
    circuit: &Circuit,
    starts: &[V],
) -> Result<Vec<V>, AllocError> {
    let mut initial = first(alloc, circuit, starts)?;
    for _round in 0..circuit.lines() {
        learn(circuit, &mut initial);
    }
    let mut values = Vec::new(alloc);
    for value in &initial {
        values.push(value.unwrap_or(V::START))?;
    }
    Ok(values)
}

// An empty list for each of some lines.
fn empty_lists<V: Value>(alloc: Global, lines: usize) -> Result<Vec<Vec<V>>, AllocError> {
    let mut lists = Vec::new(alloc);
    for _line in 0..lines {
        lists.push(Vec::new(alloc))?;
    }
    Ok(lists)
}

impl<V: Value> Table<V> {
    // Inputs are given nothing yet, and no tick is filled.
    pub fn new(alloc: Global, circuit: &Circuit, starts: &[V]) -> Result<Table<V>, AllocError> {
        Ok(Table {
            initial: initial_values(alloc, circuit, starts)?,
            given: empty_lists(alloc, circuit.inputs)?,
            columns: empty_lists(alloc, circuit.lines() as usize)?,
            filled: 0,
        })
    }

    pub fn initial(&self, line: u32) -> V {
        self.initial.get(place(line)).copied().unwrap_or(V::START)
    }

    // The value of a line at a tick that is filled.
    pub fn value(&self, line: u32, tick: u32) -> V {
        self.columns
            .get(place(line))
            .and_then(|column| column.get(tick as usize))
            .copied()
            .unwrap_or(V::START)
    }

    // The value just before a tick.
    pub fn before(&self, line: u32, tick: u32) -> V {
        match tick.checked_sub(1) {
            None => self.initial(line),
            Some(last) => self.value(line, last),
        }
    }

    pub fn changes(&self, line: u32, tick: u32) -> bool {
        !self.value(line, tick).same(self.before(line, tick))
    }

    // The end of an input.
    pub fn end(&self, line: u32) -> u32 {
        match self.given.get(place(line)) {
            None => 0,
            Some(values) => u32::try_from(values.len()).unwrap_or(u32::MAX),
        }
    }

    // The last value that an input is given.
    pub fn last(&self, line: u32) -> V {
        match self.given.get(place(line)) {
            None => self.initial(line),
            Some(values) => values.last().copied().unwrap_or(self.initial(line)),
        }
    }

    // An input keeps its last value up to a tick.
    pub fn hold(&mut self, line: u32, tick: u32) -> Result<(), AllocError> {
        let last = self.last(line);
        let end = self.end(line);
        if let Some(values) = self.given.get_mut(place(line)) {
            for _tick in end..tick {
                values.push(last)?;
            }
        }
        Ok(())
    }

    // An input keeps its last value up to a tick, and has a new one at it.
    pub fn feed(&mut self, line: u32, tick: u32, value: V) -> Result<(), AllocError> {
        self.hold(line, tick)?;
        if let Some(values) = self.given.get_mut(place(line)) {
            values.push(value)?;
        }
        Ok(())
    }

    // What an input has at a tick: what it is given, and from its end on the last of that.
    fn input_value(&self, line: u32, tick: u32) -> V {
        match self.given.get(place(line)) {
            None => self.initial(line),
            Some(values) => values
                .get(tick as usize)
                .copied()
                .unwrap_or(self.last(line)),
        }
    }

    // What a gate shows of the lines that it reads at a tick.
    fn shown(&self, gate: &Gate, tick: u32) -> V {
        let mut folded = None;
        for line in &gate.reads {
            folded = Some(gate.function.fold(folded, self.value(*line, tick)));
        }
        gate.function.finish(folded.unwrap_or(V::START))
    }

    // The rule of a line.
    fn rule(&self, circuit: &Circuit, line: u32, tick: u32) -> V {
        match circuit.gate(line) {
            None => self.input_value(line, tick),
            Some(gate) => match tick.checked_sub(gate.delay) {
                None => self.initial(line),
                Some(then) => self.shown(gate, then),
            },
        }
    }

    // Fills a tick: a gate reads ticks that are filled, since no delay is 0.
    fn fill_tick(&mut self, circuit: &Circuit, tick: u32) -> Result<(), AllocError> {
        for line in 1..=circuit.lines() {
            let value = self.rule(circuit, line, tick);
            if let Some(column) = self.columns.get_mut(place(line)) {
                column.push(value)?;
            }
        }
        Ok(())
    }

    // Fills the ticks from one on anew, and up to another.
    pub fn refill(&mut self, circuit: &Circuit, from: u32, until: u32) -> Result<(), AllocError> {
        let from = from.min(self.filled);
        for column in self.columns.iter_mut() {
            column.truncate(from as usize);
        }
        for tick in from..until {
            self.fill_tick(circuit, tick)?;
        }
        self.filled = from.max(until);
        Ok(())
    }
}
