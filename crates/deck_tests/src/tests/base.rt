// The deck that most tests start from, and what a reading answers.
use deck::closing::read_netlist;
use deck::fault::Fault;
use netlist::size::Size;
use std::alloc::{AllocError, Global};
use std::process::Abort;
use std::test::Fail;

pub(super) const RECORDS: [&str; 6] = [
    "N   1   2   1",
    "I   1",
    "G   2NOT     2   1",
    "G   3AND     1   1   2",
    "O   3",
    "E",
];

// The same records, each ended by byte 10.
pub(super) const BASE: &[u8; 70] =
    b"N   1   2   1\nI   1\nG   2NOT     2   1\nG   3AND     1   1   2\nO   3\nE\n";

// A fault as users meet it: its number, its layer's letter, its record and its column.
pub(super) type Told = (u8, char, usize, usize);

pub(super) fn sized(inputs: usize, gates: usize, outputs: usize) -> Size {
    Size {
        inputs,
        gates,
        outputs,
    }
}

// Reads a deck: the bytes that it took, or its fault and the netlist without lines. A failure shows the note.
pub(super) fn check_outcome(
    rt: &impl Abort,
    deck: &[u8],
    expected: Result<usize, Told>,
    note: &str,
) {
    let (answer, netlist) = read_netlist(deck);
    match answer {
        Ok(used) => assert_eq!(rt; Ok(used), expected, "{note}"),
        Err(fault) => assert_eq!(rt; Err(told(&fault)), expected, "{note}"),
    }
    assert_eq!(rt; netlist.lines() == 0, expected.is_err(), "{note}");
}

// A function, since a tuple takes no `From` of ours.
pub(super) fn told(fault: &Fault) -> Told {
    (
        fault.refusal.number(),
        char::from(fault.layer.letter()),
        fault.record,
        fault.column,
    )
}

// The base deck with other text in the place of one record, counted from 1.
pub(super) fn with_record(heap: Global, number: usize, text: &str) -> Result<Vec<u8>, AllocError> {
    let mut deck = Vec::new(heap);
    for (place, record) in RECORDS.iter().enumerate() {
        let chosen = if place + 1 == number { text } else { *record };
        deck.extend_from_slice(chosen.as_bytes())?;
        deck.push(b'\n')?;
    }
    Ok(deck)
}
