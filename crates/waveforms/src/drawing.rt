// Lines drawn as rows of characters.
use crate::history::{end, initial, state};
use crate::level::{Level, Shown};
use engine::session::{LineState, Session};
use events::record::EventRecord;
use std::fmt;

// How many columns a row has.
pub const COLUMNS: usize = 60;

// How many ticks a column stands for.
#[derive(Clone, Copy, PartialEq, Eq, Debug)]
pub struct Scale {
    pub ticks: u64,
}

impl Scale {
    // The smallest at which all that is settled fits in the columns.
    pub fn fitting<V: Shown>(session: &Session<V>) -> Scale {
        let ticks = end(session).div_ceil(COLUMNS as u32).max(1);
        Scale {
            ticks: ticks as u64,
        }
    }

    // The first tick of a column.
    pub fn tick(self, column: usize) -> u64 {
        self.ticks.saturating_mul(column as u64)
    }
}

// A row: `_` where the line is 0, `~` where it is 1, `?` where it is not known, `=` where not all lanes are the same, `#`
// where it changes more than once within a column; it ends where the line is not settled.
#[derive(Clone, Copy, PartialEq, Eq, Debug)]
pub struct Row {
    marks: [u8; COLUMNS],
    drawn: usize,
}

impl fmt::Display for Row {
    fn fmt<W: fmt::Write>(&self, f: &mut fmt::Formatter<W>) -> fmt::Result {
        for mark in self.marks.iter().take(self.drawn) {
            f.write_char(char::from(*mark))?;
        }
        Ok(())
    }
}

fn mark(level: Level) -> u8 {
    match level {
        Level::Low | Level::Word(0) => b'_',
        Level::High | Level::Word(u64::MAX) => b'~',
        Level::Unknown => b'?',
        Level::Word(_) => b'=',
    }
}

// What draws a line: the mark of its value, and which change comes next.
#[derive(Drop)]
struct Pen {
    mark: u8,
    next: usize,
}

impl Pen {
    // Passes all changes before a tick, and answers the mark of what it passed.
    fn pass<V: Shown>(&mut self, session: &Session<V>, line: u32, kept: usize, tick: u64) -> u8 {
        let first = self.next;
        for k in first..kept {
            let Ok(EventRecord { tick: at, value }) = session.event(line, k) else {
                break;
            };
            if at as u64 >= tick {
                break;
            }
            self.mark = mark(value.level());
            self.next = k.saturating_add(1);
        }
        if self.next.saturating_sub(first) > 1 {
            b'#'
        } else {
            self.mark
        }
    }
}

// Draws a line of a session that was not trimmed and whose inputs began with START.
pub fn draw<V: Shown>(session: &Session<V>, line: u32, scale: Scale) -> Row {
    let LineState { settled, kept } = state(session, line);
    let mut row = Row {
        marks: [b' '; COLUMNS],
        drawn: 0,
    };
    let mut pen = Pen {
        mark: mark(initial(session, line).level()),
        next: 0,
    };
    for column in 0..COLUMNS {
        if scale.tick(column) >= settled as u64 {
            break;
        }
        let end = scale.tick(column.saturating_add(1));
        row.marks[column] = pen.pass(session, line, kept, end);
        row.drawn = column.saturating_add(1);
    }
    row
}
