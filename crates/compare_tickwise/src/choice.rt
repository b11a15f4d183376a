// Calls at random, good ones and bad ones.
use crate::call::Call;
use crate::drawing::draw_no_line;
use crate::level::System;
use crate::random::Random;
use crate::shape::Pace;
use tickwise::session::Session;
use tickwise::value::Value;

// Ticks that are too late for feeding and for holding.
const TOO_LATE: [u32; 2] = [2_000_000_002, u32::MAX];

// Ticks that are far beyond all that is settled, beside the last that there is.
const FAR: [u32; 3] = [1_999_999_999, 2_147_483_648, u32::MAX - 1];

// An input's line mostly, else any line or none.
fn draw_input<R: Value>(random: &mut Random, session: &Session<R>) -> u32 {
    let circuit = session.circuit();
    let inputs = u32::try_from(circuit.inputs).unwrap_or(u32::MAX);
    match random.below(24) {
        0 => draw_no_line(random, circuit.lines()),
        1 => random.within(1, circuit.lines()),
        _ => random.within(1, inputs),
    }
}

// A gate's line mostly, else any line or none.
fn draw_gate_line<R: Value>(random: &mut Random, session: &Session<R>) -> u32 {
    let circuit = session.circuit();
    let inputs = u32::try_from(circuit.inputs).unwrap_or(u32::MAX);
    match random.below(24) {
        0 => draw_no_line(random, circuit.lines()),
        1 => random.within(1, circuit.lines()),
        _ => random.within(inputs.saturating_add(1), circuit.lines()),
    }
}

fn draw_line<R: Value>(random: &mut Random, session: &Session<R>) -> u32 {
    let lines = session.circuit().lines();
    if random.one_in(16) {
        draw_no_line(random, lines)
    } else {
        random.within(1, lines)
    }
}

// A tick for feeding or holding an input: from its end on mostly, else before it or too late.
fn draw_given<R: Value>(
    random: &mut Random,
    session: &Session<R>,
    line: u32,
    pace: Pace,
    late: u32,
) -> u32 {
    let end = session.settled(line);
    match random.below(16) {
        0 => end.saturating_sub(random.within(1, 3)),
        1 => random.pick(late, &TOO_LATE),
        2..4 => end,
        _ => end.saturating_add(random.below(pace.stride())),
    }
}

// A tick for trimming: mostly one that all ends and fronts have reached.
fn draw_trim<R: Value>(random: &mut Random, session: &Session<R>) -> u32 {
    let trim = session.trim_tick();
    let reached = session.reached();
    match random.below(48) {
        0 => random.pick(u32::MAX, &FAR),
        1..6 => random.below(trim),
        6..12 => reached.saturating_add(random.within(1, 4)),
        _ => random.within(trim, reached),
    }
}

// A tick to ask a line's value at: mostly one that is settled.
fn draw_asked<R: Value>(random: &mut Random, session: &Session<R>, line: u32) -> u32 {
    let trim = session.trim_tick();
    let settled = session.settled(line);
    match random.below(48) {
        0 => random.pick(u32::MAX, &FAR),
        1..6 => random.below(trim),
        6..12 => settled.saturating_add(random.below(3)),
        _ => random.within(trim, settled.saturating_sub(1)),
    }
}

// A line of which changes are kept, if one is found soon.
fn draw_kept_line<R: Value>(random: &mut Random, session: &Session<R>) -> u32 {
    let mut line = draw_line(random, session);
    for _try in 0..3 {
        if session.state(line).is_ok_and(|state| state.kept > 0) {
            break;
        }
        line = draw_line(random, session);
    }
    line
}

// The number of a change: mostly one that is kept.
fn draw_change<R: Value>(random: &mut Random, session: &Session<R>, line: u32) -> usize {
    let kept = session.state(line).map_or(0, |state| state.kept);
    match random.below(6) {
        0 => kept,
        1 => usize::MAX,
        _ => random.below(u32::try_from(kept).unwrap_or(0)) as usize,
    }
}

fn draw_most(random: &mut Random) -> u32 {
    match random.below(5) {
        0 => random.pick(0, &[1, u32::MAX]),
        _ => random.within(1, 9),
    }
}

fn draw_feed<R: Value>(
    random: &mut Random,
    session: &Session<R>,
    system: System,
    pace: Pace,
) -> Call {
    let line = draw_input(random, session);
    Call::Feed {
        line,
        tick: draw_given(random, session, line, pace, 2_000_000_000),
        value: system.draw(random),
    }
}

// Nothing is held up to 2,000,000,000, which is accepted, since the table would have to reach there.
fn draw_hold<R: Value>(random: &mut Random, session: &Session<R>, pace: Pace) -> Call {
    let line = draw_input(random, session);
    Call::Hold {
        line,
        tick: draw_given(random, session, line, pace, 2_000_000_001),
    }
}

// A call for a session that stands so.
pub fn draw_call<R: Value>(
    random: &mut Random,
    session: &Session<R>,
    system: System,
    pace: Pace,
) -> Call {
    match random.below(32) {
        0..10 => draw_feed(random, session, system, pace),
        10..14 => draw_hold(random, session, pace),
        14..19 => Call::Take(draw_gate_line(random, session)),
        19..22 => Call::Run(draw_most(random)),
        22 => Call::RunToRest,
        23..26 => Call::Trim(draw_trim(random, session)),
        26..28 => {
            let line = draw_line(random, session);
            let tick = draw_asked(random, session, line);
            Call::Value { line, tick }
        }
        28..30 => {
            let line = draw_kept_line(random, session);
            let k = draw_change(random, session, line);
            Call::Event { line, k }
        }
        _ => Call::State(draw_line(random, session)),
    }
}
