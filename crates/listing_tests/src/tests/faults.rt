// Faults, each by the row that is listed for it. 8 and 11 cannot occur, since a netlist that is closed has lines and as many
// values to begin with as inputs; 10 cannot, since 4,096 records are four for each of 1,024 lines; 15, 17 and 18 cannot, since
// nothing is trimmed, asked for beyond what is settled or kept, or taken but where a front can move.
use super::base::{DECK, check_listing, joined};
use std::alloc::Global;
use std::process::Abort;
use std::test::Fail;

// Records, and the row that is listed.
type Listed = (&'static str, &'static str);

// After the records come these; none is looked at. A fault is the first, and whatever it is, nothing but its row is listed.
const TAILS: [&str; 6] = ["E\n", "", "F", "X\n", "F   9         0 7\n", "E\nE\n\u{1}"];

fn check_faults(
    rt: &impl Abort,
    heap: Global,
    [deck, fed]: [&'static str; 2],
    table: &[Listed],
) -> Result<(), Fail> {
    for (records, row) in table {
        for tail in TAILS {
            let bytes = joined(heap, &[deck, fed, *records, "\n", tail])?;
            let row = joined(heap, &[*row, "\n"])?;
            check_listing(rt, heap, &bytes, &row, records)?;
        }
    }
    Ok(())
}

#[test]
fn faults_of_decks(rt: HostRuntime) -> Result<(), Fail> {
    check_faults(
        &rt,
        rt.alloc(),
        ["", ""],
        &[
            ("", "R   2    1   1 R"),
            ("N   1   1   1\nI   1\n", "R   2    3   1 R"),
            (
                "N   1   1   1\nI   1\nG   2NOT     1  1",
                "R   3    3   1 R",
            ),
            (
                "N   1   1   1\nI   1\nG   2NOT     1  01",
                "R   4    3  15 F",
            ),
            ("N   0   1   1", "R   5    1   2 R"),
            (
                "N   1   1   1\nI   1\nG   2NOT     1   3",
                "R   5    3  15 R",
            ),
            ("N   1   1   1\nI   2", "R   6    2   2 R"),
            (
                "N   1   1   1\nI   1\nG   2AND     1   1",
                "R   7    3   6 R",
            ),
        ],
    )?;
    // The deck's own end comes before a gate that no input reaches, and that before any record of the stimulus.
    let free = "N   1   2   1\nI   1\nG   2NOT     1   1\nG   3NOT     1   3\nO   2\n";
    for (end, row) in [("E", "R   1    6   1 R\n"), ("E\n", "R   9    4   1 N\n")] {
        let bytes = joined(rt.alloc(), &[free, end])?;
        check_listing(
            &rt,
            rt.alloc(),
            &bytes,
            row.as_bytes(),
            "a gate that no input reaches",
        )?;
    }
    check_faults(
        &rt,
        rt.alloc(),
        [free, ""],
        &[
            ("E", "R   9    4   1 N"),
            ("E\nX", "R   9    4   1 N"),
            ("E\nF   1         0 0", "R   9    4   1 N"),
            ("E ", "R   3    6   1 R"),
            ("O   2", "R   2    6   1 R"),
        ],
    )
}

#[test]
fn faults_of_feeds(rt: HostRuntime) -> Result<(), Fail> {
    check_faults(
        &rt,
        rt.alloc(),
        [DECK, ""],
        &[
            // The letter.
            ("", "R   2    7   1 R"),
            ("f   1         0 0", "R   2    7   1 R"),
            (" F  1         0 0", "R   2    7   1 R"),
            ("G   1         0 0", "R   2    7   1 R"),
            ("N   1   2   1", "R   2    7   1 R"),
            ("O   3", "R   2    7   1 R"),
            ("C         0 0", "R   2    7   1 R"),
            // The length.
            ("F", "R   3    7   1 R"),
            ("F   1         0", "R   3    7   1 R"),
            ("F   1         0 ", "R   3    7   1 R"),
            ("F   1         0 0 ", "R   3    7   1 R"),
            ("F   1         0 0\r", "R   3    7   1 R"),
            ("F   x         x x ", "R   3    7   1 R"),
            // The line.
            ("F             0 0", "R   4    7   2 F"),
            ("F  01         0 0", "R   4    7   2 F"),
            ("F  1          0 0", "R   4    7   2 F"),
            ("F  -1         0 0", "R   4    7   2 F"),
            ("F 1 1         0 0", "R   4    7   2 F"),
            ("F\u{b}  1         0 0", "R   4    7   2 F"),
            ("F   0         0 0", "R   5    7   2 R"),
            ("F   4         0 0", "R   5    7   2 R"),
            ("F9999         0 0", "R   5    7   2 R"),
            // The tick.
            ("F   1           0", "R   4    7   6 F"),
            ("F   1        00 0", "R   4    7   6 F"),
            ("F   1        01 0", "R   4    7   6 F"),
            ("F   1        1  0", "R   4    7   6 F"),
            ("F   1        +1 0", "R   4    7   6 F"),
            ("F   10000000000 0", "R   4    7   6 F"),
            ("F   1       1x0 0", "R   4    7   6 F"),
            ("F   14294967296 0", "R   5    7   6 R"),
            ("F   19999999999 0", "R   5    7   6 R"),
            // The value.
            ("F   1         0  ", "R   7    7  16 R"),
            ("F   1         0 2", "R   7    7  16 R"),
            ("F   1         0 x", "R   7    7  16 R"),
            ("F   1         0 Z", "R   7    7  16 R"),
            ("F   1         00 ", "R   7    7  16 R"),
            ("F   1         000", "R   7    7  16 R"),
            ("F   1         0\t1", "R   7    7  16 R"),
            // The leftmost of several.
            ("F   x         x x", "R   4    7   2 F"),
            ("F   0         x x", "R   5    7   2 R"),
            ("F   4429496729622", "R   5    7   2 R"),
            ("F   1         x x", "R   4    7   6 F"),
            ("F   14294967296 x", "R   5    7   6 R"),
            ("F   24294967296 0", "R   5    7   6 R"),
            ("F   2         0 x", "R   7    7  16 R"),
            ("F   14294967295 x", "R   7    7  16 R"),
        ],
    )
}

#[test]
fn faults_of_holds_and_ends(rt: HostRuntime) -> Result<(), Fail> {
    check_faults(
        &rt,
        rt.alloc(),
        [DECK, "F   1         0 0\n"],
        &[
            ("", "R   2    8   1 R"),
            ("h   1        20", "R   2    8   1 R"),
            ("H", "R   3    8   1 R"),
            ("H   1         ", "R   3    8   1 R"),
            ("H   1        20 ", "R   3    8   1 R"),
            ("H   1        20 0", "R   3    8   1 R"),
            ("H            20", "R   4    8   2 F"),
            ("H  01        20", "R   4    8   2 F"),
            ("H 1          20", "R   4    8   2 F"),
            ("H   0        20", "R   5    8   2 R"),
            ("H   4        20", "R   5    8   2 R"),
            ("H9999        20", "R   5    8   2 R"),
            ("H   1          ", "R   4    8   6 F"),
            ("H   1       020", "R   4    8   6 F"),
            ("H   1       20 ", "R   4    8   6 F"),
            ("H   1        2X", "R   4    8   6 F"),
            ("H   14294967296", "R   5    8   6 R"),
            ("H   19999999999", "R   5    8   6 R"),
            ("H   x         x", "R   4    8   2 F"),
            ("H   4         x", "R   5    8   2 R"),
            ("H   24294967296", "R   5    8   6 R"),
            ("e", "R   2    8   1 R"),
            (" E", "R   2    8   1 R"),
            ("E ", "R   3    8   1 R"),
            ("EE", "R   3    8   1 R"),
            ("E   1         0 0", "R   3    8   1 R"),
            ("E   1        20", "R   3    8   1 R"),
        ],
    )
}

// What a session refuses: 12, 13, 14. The rest is in `full`. Both 13 and 14 cannot be: no end is above 2,000,000,000.
#[test]
fn refusals_of_the_session(rt: HostRuntime) -> Result<(), Fail> {
    check_faults(
        &rt,
        rt.alloc(),
        [DECK, ""],
        &[
            ("F   2         0 0", "R  12    7   1 S"),
            ("F   3         0 0", "R  12    7   1 S"),
            ("H   2         0", "R  12    7   1 S"),
            ("H   3         0", "R  12    7   1 S"),
            ("F   1         0 0\nF   1         0 0", "R  13    8   1 S"),
            ("F   1         9 0\nF   1         9 0", "R  13    8   1 S"),
            ("F   1         9 0\nH   1         9", "R  13    8   1 S"),
            ("H   1         9\nF   1         8 0", "R  13    8   1 S"),
            ("H   1         9\nH   1         8", "R  13    8   1 S"),
            ("F   12000000000 0", "R  14    7   1 S"),
            ("F   14294967295 0", "R  14    7   1 S"),
            ("H   12000000001", "R  14    7   1 S"),
            ("H   14294967295", "R  14    7   1 S"),
            ("F   11999999999 0\nF   12000000000 0", "R  14    8   1 S"),
            ("F   11999999999 0\nH   11999999999", "R  13    8   1 S"),
            ("H   12000000000\nF   12000000000 0", "R  14    8   1 S"),
            ("H   12000000000\nF   11999999999 0", "R  13    8   1 S"),
            ("H   12000000000\nH   12000000001", "R  14    8   1 S"),
            ("H   12000000000\nH   11999999999", "R  13    8   1 S"),
            // 12 first.
            ("F   22000000000 X", "R  12    7   1 S"),
            ("F   1         9 0\nF   34294967295 X", "R  12    8   1 S"),
            ("H   24294967295", "R  12    7   1 S"),
            // The first of several records.
            ("F   2         0 0\nF   1         0", "R  12    7   1 S"),
            (
                "F   2         0 0\nF   12000000000 0\nX",
                "R  12    7   1 S",
            ),
            ("F   1         0\nF   2         0 0", "R   3    7   1 R"),
        ],
    )
}

// What is listed where a record is taken that is at its limits.
#[test]
fn records_that_are_taken(rt: HostRuntime) -> Result<(), Fail> {
    let table = [
        ("", "L   3         1   0\n"),
        ("F   1         0 X\n", "L   3         2   0\n"),
        ("H   1         0\n", "L   3         1   0\n"),
        (
            "F   1         9 0\nF   1        10 X\n",
            "L   3        12   2\nC        10 0\nC        11 X\n",
        ),
        (
            "F   1         9 0\nH   1        10\n",
            "L   3        11   1\nC        10 0\n",
        ),
        (
            "H   1         9\nF   1         9 0\n",
            "L   3        11   1\nC        10 0\n",
        ),
        (
            "H   1         9\nH   1         9\n",
            "L   3        10   0\n",
        ),
        (
            "F   11999999999 0\n",
            "L   32000000001   1\nC2000000000 0\n",
        ),
        ("H   12000000000\n", "L   32000000001   0\n"),
        (
            "F   11999999999 0\nH   12000000000\n",
            "L   32000000001   1\nC2000000000 0\n",
        ),
    ];
    for (records, listing) in table {
        let bytes = joined(rt.alloc(), &[DECK, records, "E\n"])?;
        check_listing(&rt, rt.alloc(), &bytes, listing.as_bytes(), records)?;
    }
    Ok(())
}

// After the end no record is one of the stimulus's.
#[test]
fn bytes_after_the_end(rt: HostRuntime) -> Result<(), Fail> {
    let table = [
        ("\n", "R   2    8   1 R\n"),
        ("\n\n", "R   2    8   1 R\n"),
        ("E\n", "R   2    8   1 R\n"),
        ("F   1         0 0\n", "R   2    8   1 R\n"),
        ("H   1         0\nE\n", "R   2    8   1 R\n"),
        ("N   1   2   1\n", "R   2    8   1 R\n"),
        ("F\nE", "R   2    8   1 R\n"),
        ("E", "R   1    8   1 R\n"),
        (" ", "R   1    8   1 R\n"),
        ("F   1         0 0", "R   1    8   1 R\n"),
        ("\0", "R   1    8   1 R\n"),
    ];
    for (tail, row) in table {
        let bytes = joined(rt.alloc(), &[DECK, "E\n", tail])?;
        check_listing(&rt, rt.alloc(), &bytes, row.as_bytes(), tail)?;
    }
    Ok(())
}
