// A session on the table of all values.
use crate::circuit::{Circuit, Gate, place};
use crate::distance::{least_lengths, less};
use crate::refusal::Refusal;
use crate::table::Table;
use crate::value::Value;
use std::alloc::{AllocError, Global};

const LAST_FEED: u32 = 1_999_999_999;

const LAST_HOLD: u32 = 2_000_000_000;

// A tick, and the value from there on.
#[derive(Clone, Copy, PartialEq, Eq, Debug)]
pub struct Change<V> {
    pub tick: u32,
    pub value: V,
}

// How many takes a run made, and whether no gate can be taken after it.
#[derive(Clone, Copy, PartialEq, Eq, Debug)]
pub struct Ran {
    pub takes: u32,
    pub rests: bool,
}

// How far a line is settled, and how many changes of it are kept.
#[derive(Clone, Copy, PartialEq, Eq, Debug)]
pub struct State {
    pub settled: u32,
    pub kept: usize,
}

// The table is filled as far as any line can be settled. Each gate has its front.
#[derive(Drop)]
pub struct Session<'c, V> {
    alloc: Global,
    circuit: &'c Circuit,
    room: usize,
    trim: u32,
    fronts: Vec<u32>,
    table: Table<V>,
}

impl<'c, V: Value> Session<'c, V> {
    // Whether a session can be made, with so many records.
    pub fn check(circuit: &Circuit, records: usize, starts: &[V]) -> Result<(), Refusal> {
        let lines = circuit.lines() as usize;
        if lines == 0 {
            return Err(Refusal::Open);
        }
        if records < lines.saturating_mul(2) {
            return Err(Refusal::FewRecords);
        }
        if starts.len() != circuit.inputs {
            return Err(Refusal::WrongStarts);
        }
        Ok(())
    }

    // Makes a session, without a test.
    pub fn make(
        alloc: Global,
        circuit: &'c Circuit,
        records: usize,
        starts: &[V],
    ) -> Result<Session<'c, V>, AllocError> {
        let share = records.checked_div(circuit.lines() as usize).unwrap_or(0);
        let mut session = Session {
            alloc,
            circuit,
            room: share.saturating_sub(1),
            trim: 0,
            fronts: vec![in alloc; 0; circuit.gates.len()]?,
            table: Table::new(alloc, circuit, starts)?,
        };
        session.refill(0)?;
        Ok(session)
    }

    pub fn room(&self) -> usize {
        self.room
    }

    pub fn trim_tick(&self) -> u32 {
        self.trim
    }

    pub fn circuit(&self) -> &'c Circuit {
        self.circuit
    }

    // The front of a gate's line.
    fn front(&self, line: u32) -> u32 {
        let gate = place(line).wrapping_sub(self.circuit.inputs);
        self.fronts.get(gate).copied().unwrap_or(0)
    }

    // How far a line is settled.
    pub fn settled(&self, line: u32) -> u32 {
        match self.circuit.gate(line) {
            None => self.table.end(line),
            Some(gate) => self.front(line).saturating_add(gate.delay),
        }
    }

    // The least settled time of the lines that a gate reads.
    fn goal(&self, gate: &Gate) -> u32 {
        let mut goal = u32::MAX;
        for line in &gate.reads {
            goal = goal.min(self.settled(*line));
        }
        goal
    }

    // How many changes a line has from the trim tick on and before a tick.
    fn changes_before(&self, line: u32, tick: u32) -> usize {
        let mut count: usize = 0;
        for earlier in self.trim..tick {
            if self.table.changes(line, earlier) {
                count = count.saturating_add(1);
            }
        }
        count
    }

    // Whether a line changes at a tick, and there is no room for that.
    fn overflows(&self, line: u32, tick: u32) -> bool {
        self.trim <= tick
            && self.table.changes(line, tick)
            && self.changes_before(line, tick) == self.room
    }

    // Whether the front of a gate's line is below its goal, and what comes next does not overflow.
    fn can_move(&self, gate: &Gate, line: u32) -> bool {
        self.front(line) < self.goal(gate) && !self.overflows(line, self.settled(line))
    }

    // Whether a gate's front is at its goal, or it is full.
    fn rests(&self, gate: &Gate, line: u32) -> bool {
        self.front(line) == self.goal(gate) || self.overflows(line, self.settled(line))
    }

    // Whether a line is a gate's that rests below its goal.
    pub fn is_full(&self, line: u32) -> bool {
        match self.circuit.gate(line) {
            None => false,
            Some(gate) => self.front(line) < self.goal(gate) && self.rests(gate, line),
        }
    }

    // The lengths with which the paths that begin at inputs begin.
    fn ends(&self) -> Result<Vec<Option<u32>>, AllocError> {
        let mut ends = Vec::new(self.alloc);
        for line in 1..=self.circuit.lines() {
            if self.circuit.is_input(line) {
                ends.push(Some(self.table.end(line)))?;
            } else {
                ends.push(None)?;
            }
        }
        Ok(ends)
    }

    // The unlimited distances of all lines.
    fn unlimited(&self) -> Result<Vec<Option<u32>>, AllocError> {
        Ok(least_lengths(self.circuit, self.ends()?))
    }

    // The change of a line that overflows, if it comes below a tick.
    fn stop(&self, line: u32, below: u32) -> Option<u32> {
        for tick in self.trim..below {
            if self.overflows(line, tick) {
                return Some(tick);
            }
        }
        None
    }

    // The distances of all lines. A path may also begin at an overfull line, with its stop.
    pub fn distances(&self) -> Result<Vec<Option<u32>>, AllocError> {
        let unlimited = self.unlimited()?;
        let mut begins = Vec::new(self.alloc);
        for line in 1..=self.circuit.lines() {
            let begin = if self.circuit.is_input(line) {
                Some(self.table.end(line))
            } else {
                None
            };
            let below = unlimited.get(place(line)).copied().flatten().unwrap_or(0);
            begins.push(less(begin, self.stop(line, below)))?;
        }
        Ok(least_lengths(self.circuit, begins))
    }

    // Fills the table from a tick on anew, as far as any line can be settled, and the tick after it.
    fn refill(&mut self, from: u32) -> Result<(), AllocError> {
        let mut most: u32 = 0;
        for length in &self.unlimited()? {
            most = most.max(length.unwrap_or(0));
        }
        self.table
            .refill(self.circuit, from, most.saturating_add(1))
    }

    // Tests what feeding and holding have in common.
    fn may_give(&self, line: u32, tick: u32, last: u32) -> Result<(), Refusal> {
        if !self.circuit.is_input(line) {
            return Err(Refusal::NoSuchLine);
        }
        if tick < self.table.end(line) {
            return Err(Refusal::Past);
        }
        if last < tick {
            return Err(Refusal::Late);
        }
        Ok(())
    }

    fn may_feed(&self, line: u32, tick: u32, value: V) -> Result<(), Refusal> {
        self.may_give(line, tick, LAST_FEED)?;
        let end = self.table.end(line);
        let changes = !value.same(self.table.last(line));
        if changes && self.changes_before(line, end) == self.room {
            return Err(Refusal::Full);
        }
        Ok(())
    }

    pub fn feed(
        &mut self,
        line: u32,
        tick: u32,
        value: V,
    ) -> Result<Result<(), Refusal>, AllocError> {
        if let Err(refusal) = self.may_feed(line, tick, value) {
            return Ok(Err(refusal));
        }
        self.table.feed(line, tick, value)?;
        self.refill(tick)?;
        Ok(Ok(()))
    }

    pub fn hold(&mut self, line: u32, tick: u32) -> Result<Result<(), Refusal>, AllocError> {
        if let Err(refusal) = self.may_give(line, tick, LAST_HOLD) {
            return Ok(Err(refusal));
        }
        self.table.hold(line, tick)?;
        self.refill(tick)?;
        Ok(Ok(()))
    }

    // Moves a front by a tick.
    fn step(&mut self, line: u32) {
        let gate = place(line).wrapping_sub(self.circuit.inputs);
        if let Some(front) = self.fronts.get_mut(gate) {
            *front = front.saturating_add(1);
        }
    }

    // Moves a front tick by tick, up to the goal or before a change that overflows.
    fn advance(&mut self, gate: &Gate, line: u32) {
        let goal = self.goal(gate);
        for _tick in self.front(line)..goal {
            if self.overflows(line, self.settled(line)) {
                break;
            }
            self.step(line);
        }
    }

    // Takes a gate, and tells how far its line is settled.
    pub fn take(&mut self, line: u32) -> Result<u32, Refusal> {
        let circuit = self.circuit;
        let Some(gate) = circuit.gate(line) else {
            return Err(Refusal::NoSuchLine);
        };
        if self.front(line) == self.goal(gate) {
            return Err(Refusal::Idle);
        }
        if !self.can_move(gate, line) {
            return Err(Refusal::Full);
        }
        self.advance(gate, line);
        Ok(self.settled(line))
    }

    // The line of the gate that comes first: of those that can be taken, the one of the smallest front, and of those the
    // smallest line.
    fn first(&self) -> Option<u32> {
        let mut first: Option<u32> = None;
        for line in 1..=self.circuit.lines() {
            if let Some(gate) = self.circuit.gate(line) {
                let is_before = first.is_none_or(|other| self.front(line) < self.front(other));
                if is_before && self.can_move(gate, line) {
                    first = Some(line);
                }
            }
        }
        first
    }

    // Makes so many takes, or fewer until no gate can be taken.
    pub fn run(&mut self, most: u32) -> Ran {
        let mut takes: u32 = 0;
        for _take in 0..most {
            let Some(line) = self.first() else {
                break;
            };
            let _ = self.take(line);
            takes = takes.saturating_add(1);
        }
        Ran {
            takes,
            rests: self.first().is_none(),
        }
    }

    // Whether every gate rests.
    pub fn at_rest(&self) -> bool {
        let mut rest = true;
        for line in 1..=self.circuit.lines() {
            if let Some(gate) = self.circuit.gate(line) {
                rest &= self.rests(gate, line);
            }
        }
        rest
    }

    // The tick that every end and every front has reached.
    pub fn reached(&self) -> u32 {
        let mut reached = u32::MAX;
        for line in 1..=self.circuit.lines() {
            if self.circuit.is_input(line) {
                reached = reached.min(self.table.end(line));
            } else {
                reached = reached.min(self.front(line));
            }
        }
        reached
    }

    pub fn trim(&mut self, tick: u32) -> Result<(), Refusal> {
        if self.circuit.lines() == 0 {
            return Err(Refusal::Unsettled);
        }
        if tick < self.trim {
            return Err(Refusal::Past);
        }
        if self.reached() < tick {
            return Err(Refusal::Unsettled);
        }
        self.trim = tick;
        Ok(())
    }

    pub fn value(&self, line: u32, tick: u32) -> Result<V, Refusal> {
        if !self.circuit.has(line) {
            return Err(Refusal::NoSuchLine);
        }
        if tick < self.trim {
            return Err(Refusal::Past);
        }
        if self.settled(line) <= tick {
            return Err(Refusal::Unsettled);
        }
        Ok(self.table.value(line, tick))
    }

    // The kept changes of a line.
    pub fn kept_changes(&self, line: u32) -> Result<Vec<Change<V>>, AllocError> {
        let mut changes = Vec::new(self.alloc);
        for tick in self.trim..self.settled(line) {
            if self.table.changes(line, tick) {
                let value = self.table.value(line, tick);
                changes.push(Change { tick, value })?;
            }
        }
        Ok(changes)
    }

    // A kept change, counted from 0.
    pub fn event(&self, line: u32, k: usize) -> Result<Change<V>, Refusal> {
        if !self.circuit.has(line) {
            return Err(Refusal::NoSuchLine);
        }
        let mut before: usize = 0;
        for tick in self.trim..self.settled(line) {
            if self.table.changes(line, tick) {
                if before == k {
                    let value = self.table.value(line, tick);
                    return Ok(Change { tick, value });
                }
                before = before.saturating_add(1);
            }
        }
        Err(Refusal::NoSuchChange)
    }

    pub fn state(&self, line: u32) -> Result<State, Refusal> {
        if !self.circuit.has(line) {
            return Err(Refusal::NoSuchLine);
        }
        let settled = self.settled(line);
        Ok(State {
            settled,
            kept: self.changes_before(line, settled),
        })
    }

    // The records of a line as they stand in a store: its base, its kept changes, and fillers.
    fn records(&self, line: u32) -> Result<Vec<Change<V>>, AllocError> {
        let mut records = Vec::new(self.alloc);
        records.push(Change {
            tick: self.trim,
            value: self.table.before(line, self.trim),
        })?;
        for change in &self.kept_changes(line)? {
            records.push(*change)?;
        }
        for _filler in records.len()..self.room.saturating_add(1) {
            records.push(Change {
                tick: 0,
                value: V::START,
            })?;
        }
        Ok(records)
    }

    // The records of all lines, as they must stand in the store of a session.
    pub fn store(&self) -> Result<Vec<Change<V>>, AllocError> {
        let mut store = Vec::new(self.alloc);
        for line in 1..=self.circuit.lines() {
            for record in &self.records(line)? {
                store.push(*record)?;
            }
        }
        Ok(store)
    }
}
