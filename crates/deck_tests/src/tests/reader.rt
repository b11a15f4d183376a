// The reader, record by record.
use super::base::{BASE, Told, told};
use deck::reader::DeckReader;
use std::test::Fail;

// The bytes of the record that was taken, or the fault.
fn next(reader: &mut DeckReader, bytes: &[u8]) -> Result<usize, Told> {
    match reader.next(bytes) {
        Ok(taken) => Ok(taken.bytes),
        Err(fault) => Err(told(&fault)),
    }
}

#[test]
fn a_reader_goes_on_after_a_fault(rt: HostRuntime) -> Result<(), Fail> {
    // Bytes that are refused in each phase.
    let wrong: [(&[u8], u8); 4] = [(b"", 1), (b"E", 1), (b"\nE\n", 2), (b"X\n", 2)];
    // The records of the base deck: their first byte, and their length with the ending.
    let records = [
        (1, 0, 14),
        (2, 14, 6),
        (3, 20, 19),
        (4, 39, 23),
        (5, 62, 6),
        (6, 68, 2),
    ];
    let mut reader = DeckReader::new();
    for (record, first, length) in records {
        for (bytes, number) in wrong {
            assert_eq!(rt; next(&mut reader, bytes), Err((number, 'R', record, 1)));
        }
        let rest = BASE.get(first..70).ok_or("past the deck")?;
        assert_eq!(rt; next(&mut reader, rest), Ok(length));
    }
    for record in ["N   1   2   1\n", "G   4NOT     1   1\n", "O   3\n", "E\n"] {
        assert_eq!(rt; next(&mut reader, record.as_bytes()), Err((2, 'R', 7, 1)));
    }
    let draft = reader.finish();
    assert!(rt; draft.is_complete());
    assert_eq!(rt; draft.lines(), 3);
    Ok(())
}

#[test]
fn a_reader_that_is_not_done_gives_a_dead_draft(rt: HostRuntime) -> Result<(), Fail> {
    for count in 0..6 {
        let mut reader = DeckReader::new();
        for first in [0, 14, 20, 39, 62].iter().take(count) {
            let rest = BASE.get(*first..70).ok_or("past the deck")?;
            assert!(rt; next(&mut reader, rest).is_ok());
        }
        let draft = reader.finish();
        assert_eq!(rt; (draft.lines(), draft.takes_gate()), (0, false));
    }
    Ok(())
}
