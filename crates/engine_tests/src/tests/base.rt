// Netlists from tables, and logs of calls with their answers.
use engine::session::{Ending, LineState, Ran, Session};
use events::record::EventRecord;
use netlist::closed::Netlist;
use netlist::draft::Draft;
use netlist::kind::Kind;
use netlist::refusal::Refusal;
use netlist::size::Size;
use std::alloc::{AllocError, Global};
use std::fmt::Debug;
use std::process::Abort;
use std::test::Fail;
use values::bit::Bit;
use values::lanes::Lanes;
use values::system::ValueSystem;
use values::ternary::Ternary;

// Inputs, and the gates after them: each with its kind, its delay and the lines that it reads.
#[derive(Clone, Copy)]
pub(super) struct Wiring<'a> {
    pub inputs: usize,
    pub gates: &'a [(Kind, u32, &'a [u32])],
}

// Line 2 is NOT of line 1, an input; line 3 is AND of both.
pub(super) const PULSE: Wiring = Wiring {
    inputs: 1,
    gates: &[(Kind::Not, 2, &[1]), (Kind::And, 1, &[1, 2])],
};

// A closed netlist, whose last line is its output; the empty one where there are no gates.
pub(super) fn closed(wiring: Wiring) -> Result<Netlist, Fail> {
    if wiring.gates.is_empty() {
        return Ok(Netlist::empty());
    }
    let mut draft = Draft::new(Size {
        inputs: wiring.inputs,
        gates: wiring.gates.len(),
        outputs: 1,
    });
    for (kind, delay, reads) in wiring.gates {
        draft.add_gate(*kind, *delay, reads)?;
    }
    draft.add_output(draft.lines() as u32)?;
    let (answer, netlist) = draft.close();
    answer?;
    Ok(netlist)
}

// A value in any system: START, or that of a word in lanes, whose lowest bit it is in the other systems.
#[derive(Clone, Copy, Debug)]
pub(super) enum Level {
    Start,
    Word(u64),
}

pub(super) const LOW: Level = Level::Word(0);

pub(super) const HIGH: Level = Level::Word(u64::MAX);

// A system in which levels are spelled.
pub(super) trait Scale: ValueSystem + PartialEq + Debug {
    fn of(level: Level) -> Self;
}

impl Scale for Bit {
    fn of(level: Level) -> Bit {
        match level {
            Level::Start => Bit(false),
            Level::Word(word) => Bit(word & 1 == 1),
        }
    }
}

impl Scale for Ternary {
    fn of(level: Level) -> Ternary {
        match level {
            Level::Start => Ternary::X,
            Level::Word(word) if word & 1 == 1 => Ternary::One,
            Level::Word(_) => Ternary::Zero,
        }
    }
}

impl Scale for Lanes {
    fn of(level: Level) -> Lanes {
        match level {
            Level::Start => Lanes(0),
            Level::Word(word) => Lanes(word),
        }
    }
}

// Words of some lanes, and of the others. In one bit they are 1 and 0.
pub(super) const SOME: Level = Level::Word(0x0f0f_0f0f_0f0f_0f0f);

pub(super) const OTHERS: Level = Level::Word(0xf0f0_f0f0_f0f0_f0f0);

// A call of a session.
#[derive(Clone, Copy, Debug)]
pub(super) enum Call {
    Feed(u32, u32, Level),
    Hold(u32, u32),
    Take(u32),
    Run(u32),
    ToRest,
    Trim(u32),
    Value(u32, u32),
    Event(u32, usize),
    State(u32),
    AtRest,
}

// What a session answers. A refusal is told by its number, by which users know it.
#[derive(Clone, Copy, PartialEq, Debug)]
pub(super) enum Answer<V> {
    Done,
    Settled(u32),
    Rest(u32),
    More(u32),
    Took(u64),
    Shows(V),
    Change(u32, V),
    Stands(u32, usize),
    Resting(bool),
    Refused(u8),
}

// An answer in a system.
fn spelled<V: Scale>(answer: Answer<Level>) -> Answer<V> {
    match answer {
        Answer::Done => Answer::Done,
        Answer::Settled(tick) => Answer::Settled(tick),
        Answer::Rest(takes) => Answer::Rest(takes),
        Answer::More(takes) => Answer::More(takes),
        Answer::Took(takes) => Answer::Took(takes),
        Answer::Shows(level) => Answer::Shows(V::of(level)),
        Answer::Change(tick, level) => Answer::Change(tick, V::of(level)),
        Answer::Stands(settled, kept) => Answer::Stands(settled, kept),
        Answer::Resting(rest) => Answer::Resting(rest),
        Answer::Refused(number) => Answer::Refused(number),
    }
}

fn ran<V>(answer: Ran) -> Answer<V> {
    match answer.ending {
        Ending::Rest => Answer::Rest(answer.takes),
        Ending::More => Answer::More(answer.takes),
    }
}

// What a session answers, or the refusal.
fn tried<V: Scale>(session: &mut Session<V>, call: Call) -> Result<Answer<V>, Refusal> {
    Ok(match call {
        Call::Feed(line, tick, level) => {
            session.feed(line, tick, V::of(level))?;
            Answer::Done
        }
        Call::Hold(line, tick) => {
            session.hold(line, tick)?;
            Answer::Done
        }
        Call::Take(line) => Answer::Settled(session.take(line)?),
        Call::Run(most) => ran(session.run(most)),
        Call::ToRest => Answer::Took(session.run_to_rest()),
        Call::Trim(tick) => {
            session.trim(tick)?;
            Answer::Done
        }
        Call::Value(line, tick) => Answer::Shows(session.value(line, tick)?),
        Call::Event(line, k) => {
            let EventRecord { tick, value } = session.event(line, k)?;
            Answer::Change(tick, value)
        }
        Call::State(line) => {
            let LineState { settled, kept } = session.state(line)?;
            Answer::Stands(settled, kept)
        }
        Call::AtRest => Answer::Resting(session.at_rest()),
    })
}

// Calls a session.
fn called<V: Scale>(session: &mut Session<V>, call: Call) -> Answer<V> {
    match tried(session, call) {
        Ok(answer) => answer,
        Err(refusal) => Answer::Refused(refusal.number()),
    }
}

// A record: a tick and a value.
pub(super) type Told = (u32, Level);

pub(super) fn record<V: Scale>(told: Told) -> EventRecord<V> {
    let (tick, level) = told;
    EventRecord {
        tick,
        value: V::of(level),
    }
}

// What stands in each record of a store before a session.
pub(super) const UNTOUCHED: Told = (77, HIGH);

// Records as they stand before a session.
pub(super) fn untouched<V: Scale>(
    heap: Global,
    count: usize,
) -> Result<Vec<EventRecord<V>>, AllocError> {
    let mut store = Vec::new(heap);
    for _ in 0..count {
        store.push(record::<V>(UNTOUCHED))?;
    }
    Ok(store)
}

// Values for inputs to begin with.
pub(super) fn begun<V: Scale>(heap: Global, levels: &[Level]) -> Result<Vec<V>, AllocError> {
    let mut starts = Vec::new(heap);
    for level in levels {
        starts.push(V::of(*level))?;
    }
    Ok(starts)
}

// A session from its making on: what its inputs begin with, and each call with its answer. Then each line: how far it is
// settled, how many changes are kept, and all its records; and the records of the store that belong to no line.
#[derive(Clone, Copy)]
pub(super) struct Story<'a> {
    pub wiring: Wiring<'a>,
    pub starts: &'a [Level],
    pub log: &'a [(Call, Answer<Level>)],
    pub lines: &'a [(u32, usize, &'a [Told])],
    pub spare: &'a [Told],
}

// Calls a session.
pub(super) fn check_log<V: Scale>(
    rt: &impl Abort,
    session: &mut Session<V>,
    log: &[(Call, Answer<Level>)],
) {
    for (call, answer) in log {
        assert_eq!(rt; called(session, *call), spelled(*answer), "{call:?}");
    }
}

// Asks for the changes of a line: there are these and no more.
pub(super) fn check_changes<V: Scale>(
    rt: &impl Abort,
    session: &mut Session<V>,
    line: u32,
    changes: &[Told],
) {
    for (k, (tick, level)) in changes.iter().enumerate() {
        check_log(
            rt,
            session,
            &[(Call::Event(line, k), Answer::Change(*tick, *level))],
        );
    }
    check_log(
        rt,
        session,
        &[(Call::Event(line, changes.len()), Answer::Refused(18))],
    );
}

// Tells a story in records as they stand before a session.
fn check_session<V: Scale>(
    rt: &impl Abort,
    store: &mut [EventRecord<V>],
    starts: &[V],
    story: Story,
) -> Result<(), Fail> {
    let mut session = Session::make(closed(story.wiring)?, store, starts);
    check_log(rt, &mut session, story.log);
    for (line, (settled, kept, records)) in (1..1025u32).zip(story.lines) {
        check_log(
            rt,
            &mut session,
            &[(Call::State(line), Answer::Stands(*settled, *kept))],
        );
        let changes = records.get(1..=*kept).ok_or("too few records")?;
        check_changes(rt, &mut session, line, changes);
    }
    Ok(())
}

// Tells a story in one system.
pub(super) fn check_in<V: Scale>(rt: &impl Abort, heap: Global, story: Story) -> Result<(), Fail> {
    let mut expected: Vec<EventRecord<V>> = Vec::new(heap);
    for (_, _, records) in story.lines {
        for told in *records {
            expected.push(record(*told))?;
        }
    }
    for told in story.spare {
        expected.push(record(*told))?;
    }
    let mut store = untouched(heap, expected.len())?;
    check_session(rt, &mut store, &begun(heap, story.starts)?, story)?;
    assert_eq!(rt; store, expected);
    Ok(())
}

// Tells a story in each system.
pub(super) fn check(rt: &impl Abort, heap: Global, story: Story) -> Result<(), Fail> {
    check_in::<Bit>(rt, heap, story)?;
    check_in::<Ternary>(rt, heap, story)?;
    check_in::<Lanes>(rt, heap, story)
}
