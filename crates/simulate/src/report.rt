// What came of a job.
use crate::narrator::Narrator;
use crate::stop::Stop;
use engine::session::{LineState, Session};
use events::record::EventRecord;
use listing::rows::{change_row, line_row};
use std::io;
use std::io::Write;
use values::ternary::Ternary;
use waveforms::drawing::{COLUMNS, Scale, draw};
use waveforms::level::{Level, Shown};
use waveforms::name::Name;

// The largest count of changes that fits the columns of its row.
const MOST_COUNTED: usize = 9_999;

// Whether a gate rests before its goal, since there is no room for its line's next change.
fn is_full<V: Shown>(session: &Session<V>, line: u32) -> Result<bool, Stop> {
    let Some(row) = session.netlist().row(line) else {
        return Ok(false);
    };
    let mut goal = u32::MAX;
    for read in row.reads() {
        goal = goal.min(session.state(*read)?.settled);
    }
    let settled = session.state(line)?.settled;
    Ok(settled < goal.saturating_add(row.delay))
}

// How far each line is settled at rest, which is its distance.
pub fn tell_distances<V: Shown, R: Print + AllocGlobal>(
    narrator: &Narrator<R>,
    session: &Session<V>,
) -> Result<(), Stop> {
    let lines = session.netlist().lines() as u32;
    for line in 1..=lines {
        let name = Name::of(session.netlist(), line);
        let LineState { settled, kept } = session.state(line)?;
        if is_full(session, line)? {
            narrator.tell(format_args!(
                "{name}: settled to {settled}, {kept} changes, full: no room for the change at {settled}"
            ))?;
        } else {
            narrator.tell(format_args!(
                "{name}: settled to its distance {settled}, {kept} changes"
            ))?;
        }
    }
    Ok(())
}

// The row of a line; it is longer where a count does not fit its columns.
fn list_line<W: Write>(out: &mut W, line: u32, state: LineState) -> io::Result<()> {
    let LineState { settled, kept } = state;
    if kept <= MOST_COUNTED {
        out.write_all(&line_row(line, settled, kept))
    } else {
        writeln!(out, "L{line:>4}{settled:>10} {kept}")
    }
}

// The row of a change; a word stands in hexadecimal where else the letter does.
fn list_change<V: Shown, W: Write>(out: &mut W, change: EventRecord<V>) -> io::Result<()> {
    let EventRecord { tick, value } = change;
    match value.level() {
        Level::Low => out.write_all(&change_row(tick, Ternary::Zero)),
        Level::High => out.write_all(&change_row(tick, Ternary::One)),
        Level::Unknown => out.write_all(&change_row(tick, Ternary::X)),
        Level::Word(word) => writeln!(out, "C{tick:>10} {word:016x}"),
    }
}

// Lists a line with its changes.
fn list_output<V: Shown, W: Write>(
    out: &mut W,
    session: &Session<V>,
    line: u32,
) -> Result<(), Stop> {
    let state = session.state(line)?;
    list_line(out, line, state)?;
    for k in 0..state.kept {
        list_change(out, session.event(line, k)?)?;
    }
    Ok(())
}

// Lists the outputs with their changes.
pub fn list<V: Shown, W: Write>(out: &mut W, session: &Session<V>) -> Result<(), Stop> {
    let netlist = session.netlist();
    for place in 0..netlist.outputs() {
        if let Some(line) = netlist.output(place) {
            list_output(out, session, line)?;
        }
    }
    Ok(())
}

// Draws a line behind its name.
fn tell_row<V: Shown, R: Print + AllocGlobal>(
    narrator: &Narrator<R>,
    session: &Session<V>,
    line: u32,
    scale: Scale,
) -> Result<(), Stop> {
    let name = Name::of(session.netlist(), line);
    let name = format!(in narrator.rt.alloc(); "{name}")?;
    let row = draw(session, line, scale);
    narrator.tell(format_args!("{name:>10} {row}"))?;
    Ok(())
}

// Tells what the marks mean, and the ticks of the first column, of the middle and of the end.
fn tell_scale<R: Print + AllocGlobal>(narrator: &Narrator<R>, scale: Scale) -> io::Result<()> {
    let ticks = scale.ticks;
    let (middle, last) = (scale.tick(COLUMNS / 2), scale.tick(COLUMNS));
    narrator.tell(
        "draws the inputs and the outputs: _ is 0, ~ is 1, ? is X, = is a mixed word, # is several changes",
    )?;
    narrator.tell(format_args!("ticks a column: {ticks}"))?;
    narrator.tell(format_args!("{:>10} {:<30}{middle:<20}{last:>10}", "tick", 0))
}

// Draws the inputs.
fn tell_inputs<V: Shown, R: Print + AllocGlobal>(
    narrator: &Narrator<R>,
    session: &Session<V>,
    scale: Scale,
) -> Result<(), Stop> {
    for line in 1..=session.netlist().inputs() as u32 {
        tell_row(narrator, session, line, scale)?;
    }
    Ok(())
}

// Draws the inputs and the outputs.
pub fn tell_waves<V: Shown, R: Print + AllocGlobal>(
    narrator: &Narrator<R>,
    session: &Session<V>,
) -> Result<(), Stop> {
    let scale = Scale::fitting(session);
    tell_scale(narrator, scale)?;
    tell_inputs(narrator, session, scale)?;
    let netlist = session.netlist();
    for place in 0..netlist.outputs() {
        if let Some(line) = netlist.output(place) {
            tell_row(narrator, session, line, scale)?;
        }
    }
    Ok(())
}
