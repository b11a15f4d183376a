// The dumps of sessions.
use super::base::{Desk, carry_out};
use super::examples::{
    ADDER, ADDER_LISTING, DECODER, DECODER_LISTING, FULL, FULL_LISTING, LATCH, LATCH_LISTING,
    PULSE, PULSE_LISTING,
};
use super::reader::{Change, Dump};
use engine::session::Session;
use events::record::EventRecord;
use netlist::refusal::Refusal;
use std::alloc::Global;
use std::process::Abort;
use std::test::Fail;
use values::lanes::Lanes;
use values::ternary::Ternary;
use waveforms::dump;
use waveforms::level::Shown;

const HEAD: &str = "\
$version Rutskeva $end
$comment a tick is shown as 1 ns $end
$timescale 1 ns $end
$scope module netlist $end
";

const PULSE_DUMP: &str = "\
$var wire 1 ! in1 $end
$var wire 1 \" n2_not $end
$var wire 1 # n3_and $end
$scope module outputs $end
$var wire 1 # out1_n3_and $end
$upscope $end
$upscope $end
$comment in1 is settled up to 20 $end
$comment n2_not is settled up to 22 $end
$comment n3_and is settled up to 21 $end
$enddefinitions $end
#0
$dumpvars
x!
x\"
x#
$end
0!
#1
0#
#2
1\"
#10
1!
#11
1#
#12
0\"
#13
0#
#20
x!
#21
x#
#22
";

const PULSE_IN_LANES: &str = "\
$var wire 64 ! in1 $end
$var wire 64 \" n2_not $end
$var wire 64 # n3_and $end
$scope module outputs $end
$var wire 64 # out1_n3_and $end
$upscope $end
$upscope $end
$comment in1 is settled up to 20 $end
$comment n2_not is settled up to 22 $end
$comment n3_and is settled up to 21 $end
$enddefinitions $end
#0
$dumpvars
b0 !
b1111111111111111111111111111111111111111111111111111111111111111 \"
b0 #
$end
#10
b1111111111111111111111111111111111111111111111111111111111111111 !
#11
b1111111111111111111111111111111111111111111111111111111111111111 #
#12
b0 \"
#13
b0 #
#20
bx !
#21
bx #
#22
";

// The dump of a session.
fn dumped<V: Shown>(alloc: Global, session: &Session<V>) -> Result<String, Fail> {
    let mut bytes = Vec::new(alloc);
    dump::write(&mut bytes, alloc, session)?;
    Ok(String::from_utf8(bytes).map_err(|_| "no text")?)
}

// The value of a line before tick 0: a gate keeps it at tick 0.
fn first<V: Shown>(session: &Session<V>, line: u32) -> Result<V, Refusal> {
    if line as usize <= session.netlist().inputs() {
        return Ok(V::START);
    }
    session.value(line, 0)
}

// That the changes read below its settled time are those of a line.
fn compare_changes<V: Shown>(
    rt: &impl Abort,
    alloc: Global,
    session: &Session<V>,
    line: u32,
    known: &[Change],
) -> Result<(), Fail> {
    assert_eq!(rt; known.len(), session.state(line)?.kept, "line {line}");
    for (k, change) in known.iter().enumerate() {
        let EventRecord { tick, value } = session.event(line, k)?;
        let value = format!(in alloc; "{value}")?;
        assert_eq!(rt; change.tick, tick);
        assert_eq!(rt; change.value.to_ascii_uppercase(alloc)?, value);
    }
    Ok(())
}

// That the line is not known from its settled time on, where the dump goes on beyond it, and is told so just once.
fn compare_rest(rt: &impl Abort, settled: u32, end: u32, rest: &[Change]) {
    assert_eq!(rt; rest.len(), (settled < end) as usize);
    for Change { tick, value } in rest.iter() {
        assert_eq!(rt; *tick, settled);
        assert_eq!(rt; value.as_str(), "x");
    }
}

// That the dump tells of each line what the session tells.
fn compare_lines<V: Shown>(
    rt: &impl Abort,
    alloc: Global,
    session: &Session<V>,
    dump: &Dump,
) -> Result<(), Fail> {
    for (place, variable) in dump
        .variables
        .iter()
        .take(session.netlist().lines())
        .enumerate()
    {
        let line = u32::try_from(place)?.saturating_add(1);
        let settled = session.state(line)?.settled;
        let first = first(session, line)?;
        let first = format!(in alloc; "{first}")?;
        let read = variable.first.as_ref().ok_or("no value at first")?;
        assert_eq!(rt; read.to_ascii_uppercase(alloc)?, first);
        assert_eq!(rt; dump.settled(&variable.code), Some(settled));
        let (known, rest) = variable.around(settled);
        compare_changes(rt, alloc, session, line, known)?;
        compare_rest(rt, settled, dump.end(), rest);
    }
    Ok(())
}

// The dump of an example in a value system, whose inputs begin with START; it agrees with the session.
fn dump_of<V: Shown>(rt: &impl Abort, alloc: Global, text: &str) -> Result<String, Fail> {
    let mut desk = Desk::<V>::new(alloc, text)?;
    let stimulus = desk.stimulus;
    let mut session = desk.session();
    carry_out(&mut session, stimulus)?;
    let text = dumped(alloc, &session)?;
    let dump = Dump::read(alloc, &text)?;
    if V::WIDTH == 1 {
        compare_lines(rt, alloc, &session, &dump)?;
    }
    Ok(text)
}

#[test]
fn a_dump_is_written_so(rt: HostRuntime) -> Result<(), Fail> {
    let alloc = rt.alloc();
    let three = dump_of::<Ternary>(&rt, alloc, PULSE)?;
    assert_eq!(rt; three.strip_prefix(HEAD), Some(PULSE_DUMP));
    let lanes = dump_of::<Lanes>(&rt, alloc, PULSE)?;
    assert_eq!(rt; lanes.strip_prefix(HEAD), Some(PULSE_IN_LANES));
    Ok(())
}

#[test]
fn dumps_tell_what_listings_tell(rt: HostRuntime) -> Result<(), Fail> {
    let table = [
        (PULSE, PULSE_LISTING),
        (DECODER, DECODER_LISTING),
        (LATCH, LATCH_LISTING),
        (ADDER, ADDER_LISTING),
        (FULL, FULL_LISTING),
    ];
    for (text, listing) in table {
        let dump = dump_of::<Ternary>(&rt, rt.alloc(), text)?;
        let listed = Dump::read(rt.alloc(), &dump)?.listing()?;
        assert_eq!(rt; listed.as_str(), listing);
    }
    Ok(())
}

// A dump that the reader takes.
const SMALL: &str = "\
$scope module a $end
$var wire 1 ! in1 $end
$var wire 4 \" in2 $end
$upscope $end
$comment in1 is settled up to 7 $end
$enddefinitions $end
#0
$dumpvars
x!
b0 \"
$end
#5
1!
bx \"
#7
";

// That the reader refuses the small dump where a line of it is another.
fn refuse(rt: &impl Abort, alloc: Global, old: &str, new: &str) -> Result<(), Fail> {
    let (before, after) = SMALL.split_once(old).ok_or("no such line")?;
    let text = format!(in alloc; "{before}{new}{after}")?;
    assert!(rt; Dump::read(alloc, &text).is_err(), "{new}");
    Ok(())
}

#[test]
fn the_reader_refuses_what_is_no_dump(rt: HostRuntime) -> Result<(), Fail> {
    assert_eq!(rt; Dump::read(rt.alloc(), SMALL)?.end(), 7);
    let table = [
        ("$scope module a $end", "$scope module $end"),
        ("$scope module a $end", "$upscope $end"),
        ("$upscope $end", "$scope module b $end"),
        ("$var wire 4", "$var wire 0"),
        ("$var wire 4 \"", "$var wire 4 !"),
        ("$enddefinitions $end", "$comment in2 is not told $end"),
        ("#0", "#5"),
        ("#0\n", ""),
        ("$end\n#5", "#5"),
        ("$end\n#5\n1!\nbx \"\n#7\n", ""),
        ("#5", "#0"),
        ("#7", "#5"),
        ("#7", "#"),
        ("#7", "0 !"),
        ("1!", "1#"),
        ("1!", "2!"),
        ("1!", "b1 !"),
        ("b0", "b"),
        ("b0", "b10000"),
        ("b0", "b012"),
        ("b0 \"", "0\""),
        ("bx", "bxx"),
    ];
    for (old, new) in table {
        refuse(&rt, rt.alloc(), old, new)?;
    }
    Ok(())
}
