// Decks, stimuli and listings, made record by record and row by row, and what is listed for them.
use columns::write;
use listing::lister::list;
use listing::sink::Writing;
use std::alloc::Global;
use std::process::Abort;
use std::test::Fail;

// The deck that most stimuli here follow. Their records count on from 7.
pub(super) const DECK: &str = "\
N   1   2   1
I   1
G   2NOT     2   1
G   3AND     1   1   2
O   3
E
";

pub(super) fn joined(heap: Global, parts: &[&str]) -> Result<Vec<u8>, Fail> {
    let mut bytes = Vec::new(heap);
    for part in parts {
        bytes.extend_from_slice(part.as_bytes())?;
    }
    Ok(bytes)
}

// What is listed for bytes.
pub(super) fn listed(heap: Global, bytes: &[u8]) -> Result<Vec<u8>, Fail> {
    let mut out = Writing(Vec::new(heap));
    list(bytes, &mut out)?;
    Ok(out.0)
}

// A failure shows both listings and the note.
pub(super) fn check_listing(
    rt: &impl Abort,
    heap: Global,
    bytes: &[u8],
    expected: &[u8],
    note: &str,
) -> Result<(), Fail> {
    let out = listed(heap, bytes)?;
    assert_eq!(rt; str::from_utf8(&out)?, str::from_utf8(expected)?, "{note}");
    Ok(())
}

// A number in so many columns.
fn put(rt: &impl Abort, text: &mut Vec<u8>, number: usize, width: usize) -> Result<(), Fail> {
    let mut columns = [0; 10];
    let columns = columns.get_mut(..width).ok_or("too wide")?;
    assert!(rt; write(number as u64, columns).is_ok());
    text.extend_from_slice(columns)?;
    Ok(())
}

// The header, and the inputs.
pub(super) fn put_header(
    rt: &impl Abort,
    text: &mut Vec<u8>,
    inputs: usize,
    gates: usize,
    outputs: usize,
) -> Result<(), Fail> {
    text.push(b'N')?;
    for number in [inputs, gates, outputs] {
        put(rt, text, number, 4)?;
    }
    text.push(b'\n')?;
    for line in 1..=inputs {
        put_named(rt, text, b'I', line)?;
    }
    Ok(())
}

// An input or an output.
pub(super) fn put_named(
    rt: &impl Abort,
    text: &mut Vec<u8>,
    letter: u8,
    line: usize,
) -> Result<(), Fail> {
    text.push(letter)?;
    put(rt, text, line, 4)?;
    text.push(b'\n')?;
    Ok(())
}

// A gate, with its kind and delay as they stand in their columns.
pub(super) fn put_gate(
    rt: &impl Abort,
    text: &mut Vec<u8>,
    line: usize,
    kind_and_delay: &[u8; 9],
    reads: &[usize],
) -> Result<(), Fail> {
    text.push(b'G')?;
    put(rt, text, line, 4)?;
    text.extend_from_slice(kind_and_delay)?;
    for read in reads {
        put(rt, text, *read, 4)?;
    }
    text.push(b'\n')?;
    Ok(())
}

pub(super) fn put_feed(
    rt: &impl Abort,
    text: &mut Vec<u8>,
    line: usize,
    tick: usize,
    value: u8,
) -> Result<(), Fail> {
    text.push(b'F')?;
    put(rt, text, line, 4)?;
    put_change(rt, text, tick, value)
}

// A tick and a value, as a feed and a row of a change end.
fn put_change(rt: &impl Abort, text: &mut Vec<u8>, tick: usize, value: u8) -> Result<(), Fail> {
    put(rt, text, tick, 10)?;
    text.extend_from_slice(&[b' ', value, b'\n'])?;
    Ok(())
}

pub(super) fn put_hold(
    rt: &impl Abort,
    text: &mut Vec<u8>,
    line: usize,
    tick: usize,
) -> Result<(), Fail> {
    text.push(b'H')?;
    put(rt, text, line, 4)?;
    put(rt, text, tick, 10)?;
    text.push(b'\n')?;
    Ok(())
}

// The end of a deck or a stimulus.
pub(super) fn put_end(text: &mut Vec<u8>) -> Result<(), Fail> {
    text.extend_from_slice(b"E\n")?;
    Ok(())
}

pub(super) fn put_line_row(
    rt: &impl Abort,
    text: &mut Vec<u8>,
    line: usize,
    settled: usize,
    kept: usize,
) -> Result<(), Fail> {
    text.push(b'L')?;
    put(rt, text, line, 4)?;
    put(rt, text, settled, 10)?;
    put(rt, text, kept, 4)?;
    text.push(b'\n')?;
    Ok(())
}

pub(super) fn put_change_row(
    rt: &impl Abort,
    text: &mut Vec<u8>,
    tick: usize,
    value: u8,
) -> Result<(), Fail> {
    text.push(b'C')?;
    put_change(rt, text, tick, value)
}

// The row of a fault at column 1.
pub(super) fn put_fault_row(
    rt: &impl Abort,
    text: &mut Vec<u8>,
    number: usize,
    record: usize,
    layer: u8,
) -> Result<(), Fail> {
    text.push(b'R')?;
    put(rt, text, number, 4)?;
    put(rt, text, record, 5)?;
    text.extend_from_slice(&[b' ', b' ', b' ', b'1', b' ', layer, b'\n'])?;
    Ok(())
}

// Values that take turns.
pub(super) fn turn(place: usize) -> u8 {
    if place % 2 == 0 { b'0' } else { b'1' }
}
