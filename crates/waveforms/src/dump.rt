// The value change dump of a session, which GTKWave and other wave viewers open.
use crate::history::{Change, changes, end, initial, lines, state};
use crate::level::{Level, Shown};
use crate::name::Name;
use engine::session::Session;
use std::alloc::Global;
use std::io::Write;
use std::{fmt, io};

// The code that stands for a line in the dump: one or two characters from `!` to `~`.
#[derive(Clone, Copy)]
struct Code {
    line: u32,
}

const CODES: u32 = 94;

// A character of a code.
fn character(digit: u32) -> char {
    char::from(b'!' + (digit % CODES) as u8)
}

impl fmt::Display for Code {
    fn fmt<W: fmt::Write>(&self, f: &mut fmt::Formatter<W>) -> fmt::Result {
        let place = self.line.saturating_sub(1);
        f.write_char(character(place))?;
        match (place / CODES).checked_sub(1) {
            None => Ok(()),
            Some(rest) => f.write_char(character(rest)),
        }
    }
}

// A line of so many bits that has a value from now on.
#[derive(Clone, Copy)]
struct Assignment {
    code: Code,
    width: u32,
    level: Level,
}

impl Assignment {
    // Where there is no value, it is not known.
    fn of<V: Shown>(line: u32, value: Option<V>) -> Assignment {
        Assignment {
            code: Code { line },
            width: V::WIDTH,
            level: value.map_or(Level::Unknown, |value| value.level()),
        }
    }
}

impl fmt::Display for Assignment {
    fn fmt<W: fmt::Write>(&self, f: &mut fmt::Formatter<W>) -> fmt::Result {
        let code = self.code;
        match self.level {
            Level::Low => write!(f, "0{code}"),
            Level::High => write!(f, "1{code}"),
            Level::Unknown if self.width > 1 => write!(f, "bx {code}"),
            Level::Unknown => write!(f, "x{code}"),
            Level::Word(word) => write!(f, "b{word:b} {code}"),
        }
    }
}

// Declares the lines.
fn declare_lines<V: Shown, W: Write>(out: &mut W, session: &Session<V>) -> io::Result<()> {
    let width = V::WIDTH;
    for line in 1..=lines(session) {
        let (code, name) = (Code { line }, Name::of(session.netlist(), line));
        writeln!(out, "$var wire {width} {code} {name} $end")?;
    }
    Ok(())
}

// Declares the outputs by the codes of their lines.
fn declare_outputs<V: Shown, W: Write>(out: &mut W, session: &Session<V>) -> io::Result<()> {
    let netlist = session.netlist();
    let width = V::WIDTH;
    for place in 0..netlist.outputs() {
        if let Some(line) = netlist.output(place) {
            let (code, name) = (Code { line }, Name::of(netlist, line));
            let number = place.saturating_add(1);
            writeln!(out, "$var wire {width} {code} out{number}_{name} $end")?;
        }
    }
    Ok(())
}

// Declares the lines, and once more those that are outputs.
fn declare<V: Shown, W: Write>(out: &mut W, session: &Session<V>) -> io::Result<()> {
    writeln!(out, "$scope module netlist $end")?;
    declare_lines(out, session)?;
    writeln!(out, "$scope module outputs $end")?;
    declare_outputs(out, session)?;
    writeln!(out, "$upscope $end")?;
    writeln!(out, "$upscope $end")
}

// Tells how far each line is settled: what it is from there on is not known.
fn tell_settled<V: Shown, W: Write>(out: &mut W, session: &Session<V>) -> io::Result<()> {
    for line in 1..=lines(session) {
        let name = Name::of(session.netlist(), line);
        let settled = state(session, line).settled;
        writeln!(out, "$comment {name} is settled up to {settled} $end")?;
    }
    Ok(())
}

// The values of all lines before tick 0, told at time 0 as a dump begins there.
fn begin<V: Shown, W: Write>(out: &mut W, session: &Session<V>) -> io::Result<()> {
    writeln!(out, "#0")?;
    writeln!(out, "$dumpvars")?;
    for line in 1..=lines(session) {
        let first = initial(session, line);
        writeln!(out, "{}", Assignment::of(line, Some(first)))?;
    }
    writeln!(out, "$end")
}

// All changes, after the tick of each that differs from the one before, and the end where it is later.
fn tell_changes<V: Shown, W: Write>(
    out: &mut W,
    alloc: Global,
    session: &Session<V>,
) -> io::Result<()> {
    let mut now = 0;
    for change in changes(alloc, session)?.iter() {
        let Change { tick, line, value } = *change;
        if now != tick {
            now = tick;
            writeln!(out, "#{tick}")?;
        }
        writeln!(out, "{}", Assignment::of(line, value))?;
    }
    let end = end(session);
    if now < end {
        writeln!(out, "#{end}")?;
    }
    Ok(())
}

// Writes the dump of a session that was not trimmed and whose inputs began with START.
pub fn write<V: Shown, W: Write>(
    out: &mut W,
    alloc: Global,
    session: &Session<V>,
) -> io::Result<()> {
    writeln!(out, "$version Rutskeva $end")?;
    writeln!(out, "$comment a tick is shown as 1 ns $end")?;
    writeln!(out, "$timescale 1 ns $end")?;
    declare(out, session)?;
    tell_settled(out, session)?;
    writeln!(out, "$enddefinitions $end")?;
    begin(out, session)?;
    tell_changes(out, alloc, session)
}
