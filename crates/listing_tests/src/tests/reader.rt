// The reader of stimuli, record by record.
use super::base::joined;
use deck::fault::Fault;
use std::process::Abort;
use std::test::Fail;
use stimulus::entry::Entry;
use stimulus::entry::Entry::{End, Feed, Hold};
use stimulus::reader::StimulusReader;
use values::ternary::Ternary::{One, X, Zero};

// A fault as users meet it: its number, its layer's letter, its record and its column.
type Told = (u8, char, usize, usize);

// What comes next: a record's number and what it says, or nothing, after the end; or the fault.
type Next = Result<Option<(usize, Entry)>, Told>;

// A function, since a tuple takes no `From` of ours.
fn told(fault: &Fault) -> Told {
    (
        fault.refusal.number(),
        char::from(fault.layer.letter()),
        fault.record,
        fault.column,
    )
}

fn next(reader: &mut StimulusReader) -> Next {
    match reader.next() {
        Ok(taken) => Ok(taken.map(|taken| (taken.record, taken.entry))),
        Err(fault) => Err(told(&fault)),
    }
}

// Each answer in its turn; the last comes again and again.
fn check_reader(rt: &impl Abort, mut reader: StimulusReader, answers: &[Next], note: &str) {
    for answer in answers {
        assert_eq!(rt; next(&mut reader), *answer, "{note}");
    }
    for _ in 0..3 {
        assert_eq!(rt; Some(&next(&mut reader)), answers.last(), "{note}");
    }
}

#[test]
fn records_one_after_another(rt: HostRuntime) {
    let feed = |line, tick, value| Feed { line, tick, value };
    let all =
        b"F   1         0 0\nF9999        10 1\nF1024 999999999 X\nH  20        20\nH   14294967295\nE\n";
    check_reader(
        &rt,
        StimulusReader::new(all, 1, 9999),
        &[
            Ok(Some((1, feed(1, 0, Zero)))),
            Ok(Some((2, feed(9999, 10, One)))),
            Ok(Some((3, feed(1024, 999_999_999, X)))),
            Ok(Some((4, Hold { line: 20, tick: 20 }))),
            Ok(Some((
                5,
                Hold {
                    line: 1,
                    tick: u32::MAX,
                },
            ))),
            Ok(Some((6, End))),
            Ok(None),
        ],
        "up to the end",
    );
}

#[test]
fn readers_and_their_faults(rt: HostRuntime) -> Result<(), Fail> {
    let first = Ok(Some((7, Hold { line: 3, tick: 5 })));
    let end = Ok(Some((8, End)));
    // What stands after a hold, and what is answered after it.
    let faults = [
        ("", (1, 'R', 8, 1)),
        ("E", (1, 'R', 8, 1)),
        ("\nE\n", (2, 'R', 8, 1)),
        ("O   3\nE\n", (2, 'R', 8, 1)),
        ("H   3\nE\n", (3, 'R', 8, 1)),
        ("H   3         x\nE\n", (4, 'F', 8, 6)),
        ("H   4         6\nE\n", (5, 'R', 8, 2)),
        ("F   3         5 2\nE\n", (7, 'R', 8, 16)),
    ];
    for (tail, fault) in faults {
        let bytes = joined(rt.alloc(), &["H   3         5\n", tail])?;
        let reader = StimulusReader::new(&bytes, 7, 3);
        check_reader(&rt, reader, &[first, Err(fault)], tail);
    }
    // After the end.
    let tails = [
        ("", Ok(None)),
        ("\n", Err((2, 'R', 9, 1))),
        ("E\n", Err((2, 'R', 9, 1))),
        ("H   3         5\n", Err((2, 'R', 9, 1))),
        ("E", Err((1, 'R', 9, 1))),
    ];
    for (tail, answer) in tails {
        let bytes = joined(rt.alloc(), &["H   3         5\nE\n", tail])?;
        let reader = StimulusReader::new(&bytes, 7, 3);
        check_reader(&rt, reader, &[first, end, answer], tail);
    }
    Ok(())
}

// The numbers of lines, and where the records count on from; they can be counted to the last byte.
#[test]
fn readers_at_their_limits(rt: HostRuntime) {
    let hold = Hold {
        line: 9999,
        tick: 5,
    };
    let bytes = b"H9999         5\nE\n";
    let last = usize::MAX - 18;
    let table: [(usize, usize, &[Next]); 7] = [
        (1, 0, &[Err((5, 'R', 1, 2))]),
        (1, 9998, &[Err((5, 'R', 1, 2))]),
        (
            1,
            9999,
            &[Ok(Some((1, hold))), Ok(Some((2, End))), Ok(None)],
        ),
        (
            0,
            usize::MAX,
            &[Ok(Some((0, hold))), Ok(Some((1, End))), Ok(None)],
        ),
        (
            last - 1,
            9999,
            &[Ok(Some((last - 1, hold))), Ok(Some((last, End))), Ok(None)],
        ),
        (
            last,
            9999,
            &[Ok(Some((last, hold))), Ok(Some((last + 1, End))), Ok(None)],
        ),
        (
            usize::MAX,
            9999,
            &[Ok(Some((last, hold))), Ok(Some((last + 1, End))), Ok(None)],
        ),
    ];
    for (record, lines, answers) in table {
        check_reader(
            &rt,
            StimulusReader::new(bytes, record, lines),
            answers,
            "at a limit",
        );
    }
    check_reader(
        &rt,
        StimulusReader::new(b"", usize::MAX, 1),
        &[Err((1, 'R', usize::MAX, 1))],
        "no bytes",
    );
}

#[test]
fn how_entries_are_printed(rt: HostRuntime) -> Result<(), Fail> {
    let table = [
        (
            Feed {
                line: 3,
                tick: 10,
                value: One,
            },
            "feed line 3 at 10 with 1",
        ),
        (
            Feed {
                line: 1024,
                tick: 0,
                value: X,
            },
            "feed line 1024 at 0 with X",
        ),
        (
            Hold {
                line: 3,
                tick: u32::MAX,
            },
            "hold line 3 up to 4294967295",
        ),
        (End, "end"),
    ];
    for (entry, printed) in table {
        assert_eq!(rt; format!(in rt.alloc(); "{entry}")?.as_str(), printed);
    }
    Ok(())
}
