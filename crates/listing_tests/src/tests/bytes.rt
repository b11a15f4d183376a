// A stimulus cut short, and with single bytes put in.
use super::base::{DECK, check_listing, joined};
use std::alloc::Global;
use std::process::Abort;
use std::test::Fail;

// Three records after the deck, from byte 70 on, and their end.
const STIMULUS: &str = "F   1         0 0\nF   1        10 1\nH   1        20\nE\n";

// What is listed for the deck and the stimulus with the byte put in at each of the positions from the first on and below the
// end, one at a time.
fn check_put(
    rt: &impl Abort,
    heap: Global,
    byte: u8,
    first: usize,
    end: usize,
    row: &str,
) -> Result<(), Fail> {
    for at in first..end {
        let mut bytes = joined(heap, &[DECK, STIMULUS])?;
        *bytes.get_mut(at).ok_or("past the stimulus")? = byte;
        check_listing(rt, heap, &bytes, row.as_bytes(), "a byte put in")?;
    }
    Ok(())
}

#[test]
fn foreign_bytes_in_each_position(rt: HostRuntime) -> Result<(), Fail> {
    // The positions of each letter, field and ending; without the ending two records join.
    let table = [
        (70, 71, "R   2    7   1 R\n"),
        (71, 75, "R   4    7   2 F\n"),
        (75, 85, "R   4    7   6 F\n"),
        (85, 87, "R   7    7  16 R\n"),
        (87, 88, "R   3    7   1 R\n"),
        (88, 89, "R   2    8   1 R\n"),
        (89, 93, "R   4    8   2 F\n"),
        (93, 103, "R   4    8   6 F\n"),
        (103, 105, "R   7    8  16 R\n"),
        (105, 106, "R   3    8   1 R\n"),
        (106, 107, "R   2    9   1 R\n"),
        (107, 111, "R   4    9   2 F\n"),
        (111, 121, "R   4    9   6 F\n"),
        (121, 122, "R   3    9   1 R\n"),
        (122, 123, "R   2   10   1 R\n"),
        (123, 124, "R   1   10   1 R\n"),
    ];
    for (first, end, row) in table {
        for byte in [0, 9, 13, 45, 255] {
            check_put(&rt, rt.alloc(), byte, first, end, row)?;
        }
    }
    Ok(())
}

#[test]
fn byte_10_in_each_position(rt: HostRuntime) -> Result<(), Fail> {
    let table = [
        (70, 71, "R   2    7   1 R\n"),
        (71, 87, "R   3    7   1 R\n"),
        (88, 89, "R   2    8   1 R\n"),
        (89, 105, "R   3    8   1 R\n"),
        (106, 107, "R   2    9   1 R\n"),
        (107, 121, "R   3    9   1 R\n"),
        (122, 123, "R   2   10   1 R\n"),
    ];
    for (first, end, row) in table {
        check_put(&rt, rt.alloc(), b'\n', first, end, row)?;
    }
    Ok(())
}

#[test]
fn a_stimulus_cut_short(rt: HostRuntime) -> Result<(), Fail> {
    // The lengths at which the bytes end in the deck's last record, in each of the stimulus, and at its end.
    let table = [
        (68, 70, "R   1    6   1 R\n"),
        (70, 88, "R   1    7   1 R\n"),
        (88, 106, "R   1    8   1 R\n"),
        (106, 122, "R   1    9   1 R\n"),
        (122, 124, "R   1   10   1 R\n"),
        (
            124,
            125,
            "L   3        21   3\nC         1 0\nC        11 1\nC        13 0\n",
        ),
    ];
    let bytes = joined(rt.alloc(), &[DECK, STIMULUS])?;
    for (first, end, text) in table {
        for length in first..end {
            let some = bytes.get(..length).ok_or("past the stimulus")?;
            check_listing(&rt, rt.alloc(), some, text.as_bytes(), "cut short")?;
        }
    }
    // A cut comes before any other fault of the record, and what a session refused before it.
    let cut = [
        ("X", "R   1    7   1 R\n"),
        ("F   x         x x", "R   1    7   1 R\n"),
        ("F   2         0 0", "R   1    7   1 R\n"),
        ("F   2         0 0\nF", "R  12    7   1 S\n"),
        ("H   1         9\nH   1         8", "R   1    8   1 R\n"),
    ];
    for (records, row) in cut {
        let bytes = joined(rt.alloc(), &[DECK, records])?;
        check_listing(&rt, rt.alloc(), &bytes, row.as_bytes(), records)?;
    }
    Ok(())
}
