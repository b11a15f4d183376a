// What is counted.
use crate::answer::Answer;
use crate::call::Name;
use crate::level::System;
use tickwise::circuit::Function;

// Counts one more.
pub fn count(counter: &mut u64) {
    *counter = counter.saturating_add(1);
}

// How often a call was accepted, and how often it was refused with each number.
#[derive(Clone, Copy, Default)]
pub struct Tally {
    pub accepted: u64,
    pub refused: [u64; 19],
}

impl Tally {
    fn note(&mut self, answer: Answer) {
        match answer {
            Answer::Refused(number) => {
                if let Some(refused) = self.refused.get_mut(number as usize) {
                    count(refused);
                }
            }
            _ => count(&mut self.accepted),
        }
    }
}

#[derive(Clone, Copy, Default)]
pub struct Counts {
    pub netlists: u64,
    // Sessions made, by system.
    pub sessions: [u64; 3],
    // Gates of closed netlists, by their functions.
    pub functions: [u64; 8],
    // Gates of closed netlists, by how many lines they read.
    pub reads: [u64; 5],
    // Gates whose delay is 100 or more, and those of the greatest delay.
    pub slow: u64,
    pub slowest: u64,
    pub looped: u64,
    pub reading_themselves: u64,
    // Netlists compared once more after the calls of their sessions, and drafts compared after an addition.
    pub kept_netlists: u64,
    pub drafts: u64,
    // Closed netlists with more than 64 lines, and with more than 256.
    pub wide: u64,
    pub widest: u64,
    pub tallies: [Tally; 14],
    // Lines that were full at the end.
    pub full: u64,
    pub values: u64,
    pub changes: u64,
    pub distances: u64,
    pub records: u64,
    pub untouched: u64,
    pub stores: u64,
    pub again: u64,
    // Stores compared before all calls were done again: those that were the same, and those that were not.
    pub like: u64,
    pub unlike: u64,
    // Values that are tied to bits, and that are not; those that are not told, and of these the ones that both sessions refuse,
    // each with another number.
    pub tied: u64,
    pub untied: u64,
    pub untold: u64,
    pub apart: u64,
}

impl Counts {
    pub fn note(&mut self, name: Name, answer: Answer) {
        if let Some(tally) = self.tallies.get_mut(name as usize) {
            tally.note(answer);
        }
    }

    pub fn note_session(&mut self, system: System) {
        if let Some(sessions) = self.sessions.get_mut(system as usize) {
            count(sessions);
        }
    }

    pub fn note_function(&mut self, function: Function) {
        if let Some(gates) = self.functions.get_mut(function as usize) {
            count(gates);
        }
    }

    pub fn note_reads(&mut self, reads: usize) {
        if let Some(gates) = self.reads.get_mut(reads) {
            count(gates);
        }
    }
}
