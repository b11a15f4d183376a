// Each record's faults, in the order of its tests, and the faults of whole decks.
use super::base::{BASE, Told, check_outcome, with_record};
use std::alloc::Global;
use std::process::Abort;
use std::test::Fail;

// A text put in the place of a record, and the number, layer and column of that record's fault, as users meet it.
type Refused = (&'static str, u8, char, usize);

fn check_refused(
    rt: &impl Abort,
    heap: Global,
    record: usize,
    table: &[Refused],
) -> Result<(), Fail> {
    for (text, number, layer, column) in table {
        let deck = with_record(heap, record, text)?;
        let fault = (*number, *layer, record, *column);
        check_outcome(rt, &deck, Err(fault), text);
    }
    Ok(())
}

#[test]
fn faults_of_headers(rt: HostRuntime) -> Result<(), Fail> {
    check_refused(
        &rt,
        rt.alloc(),
        1,
        &[
            ("", 2, 'R', 1),
            ("E", 2, 'R', 1),
            ("I   1", 2, 'R', 1),
            ("n   1   2   1", 2, 'R', 1),
            (" N  1   2   1", 2, 'R', 1),
            ("N", 3, 'R', 1),
            ("N   1   2   ", 3, 'R', 1),
            ("N   1   2   1 ", 3, 'R', 1),
            ("N   1   2   1\r", 3, 'R', 1),
            ("Nx", 3, 'R', 1),
            ("N       2   1", 4, 'F', 2),
            ("N  01   2   1", 4, 'F', 2),
            ("N  1    2   1", 4, 'F', 2),
            ("N 0 1   2   1", 4, 'F', 2),
            ("N   0   2   1", 5, 'R', 2),
            ("N 257   2   1", 5, 'R', 2),
            ("N9999   2   1", 5, 'R', 2),
            ("N   1  +2   1", 4, 'F', 6),
            ("N   1  02   1", 4, 'F', 6),
            ("N   1   0   1", 5, 'R', 6),
            ("N   1 769   1", 5, 'R', 6),
            ("N   1   2  -1", 4, 'F', 10),
            ("N   1   2  1 ", 4, 'F', 10),
            ("N   1   2   0", 5, 'R', 10),
            ("N   1   2 257", 5, 'R', 10),
            // The leftmost of several.
            ("N   x 769   0", 4, 'F', 2),
            ("N   0   x   1", 5, 'R', 2),
            ("N   1 769   x", 5, 'R', 6),
        ],
    )
}

#[test]
fn faults_of_inputs_outputs_and_the_end(rt: HostRuntime) -> Result<(), Fail> {
    check_refused(
        &rt,
        rt.alloc(),
        2,
        &[
            ("", 2, 'R', 1),
            ("N   1   2   1", 2, 'R', 1),
            ("G   1", 2, 'R', 1),
            ("O   1", 2, 'R', 1),
            ("i   1", 2, 'R', 1),
            ("I", 3, 'R', 1),
            ("I  1", 3, 'R', 1),
            ("I    1", 3, 'R', 1),
            ("I   1   1   1", 3, 'R', 1),
            ("I   x", 4, 'F', 2),
            ("I    ", 4, 'F', 2),
            ("I  01", 4, 'F', 2),
            ("I  1 ", 4, 'F', 2),
            ("I   0", 6, 'R', 2),
            ("I   2", 6, 'R', 2),
            ("I9999", 6, 'R', 2),
        ],
    )?;
    check_refused(
        &rt,
        rt.alloc(),
        5,
        &[
            ("", 2, 'R', 1),
            ("E", 2, 'R', 1),
            ("I   2", 2, 'R', 1),
            ("G   4NOT     1   1", 2, 'R', 1),
            ("o   3", 2, 'R', 1),
            ("O", 3, 'R', 1),
            ("O  3", 3, 'R', 1),
            ("O    3", 3, 'R', 1),
            ("O   1   1   1", 3, 'R', 1),
            ("O   x", 4, 'F', 2),
            ("O    ", 4, 'F', 2),
            ("O  03", 4, 'F', 2),
            ("O  3 ", 4, 'F', 2),
            ("O 0 4", 4, 'F', 2),
            ("O   0", 5, 'R', 2),
            ("O   4", 5, 'R', 2),
            ("O9999", 5, 'R', 2),
        ],
    )?;
    check_refused(
        &rt,
        rt.alloc(),
        6,
        &[
            ("", 2, 'R', 1),
            ("O   3", 2, 'R', 1),
            ("e", 2, 'R', 1),
            (" E", 2, 'R', 1),
            ("E ", 3, 'R', 1),
            ("EE", 3, 'R', 1),
            ("E   1   1   1", 3, 'R', 1),
        ],
    )
}

#[test]
fn faults_of_gates(rt: HostRuntime) -> Result<(), Fail> {
    check_refused(
        &rt,
        rt.alloc(),
        3,
        &[
            ("", 2, 'R', 1),
            ("I   2", 2, 'R', 1),
            ("O   3", 2, 'R', 1),
            ("g   2NOT     2   1", 2, 'R', 1),
            ("G", 3, 'R', 1),
            ("G   2NOT     ", 3, 'R', 1),
            ("G   2NOT     2", 3, 'R', 1),
            ("G   2NOT     2  1", 3, 'R', 1),
            ("G   2NOT     2   1 ", 3, 'R', 1),
            ("G   2NAND    2   1   1   1   1   1", 3, 'R', 1),
            ("G   xNOT     2   1", 4, 'F', 2),
            ("G  02NOT     2   1", 4, 'F', 2),
            ("G  2 NOT     2   1", 4, 'F', 2),
            ("G   0NOT     2   1", 6, 'R', 2),
            ("G   1NOT     2   1", 6, 'R', 2),
            ("G   3NOT     2   1", 6, 'R', 2),
            ("G   2        2   1", 7, 'R', 6),
            ("G   2 NOT    2   1", 7, 'R', 6),
            ("G   2not     2   1", 7, 'R', 6),
            ("G   2nand    2   1", 7, 'R', 6),
            ("G   2NOTE    2   1", 7, 'R', 6),
            ("G   2NOT         1", 4, 'F', 10),
            ("G   2NOT    02   1", 4, 'F', 10),
            ("G   2NOT    2    1", 4, 'F', 10),
            ("G   2NOT     0   1", 5, 'R', 10),
            ("G   2NOT 65536   1", 5, 'R', 10),
            ("G   2NOT 99999   1", 5, 'R', 10),
            ("G   2NOT     2    ", 4, 'F', 15),
            ("G   2NOT     2  01", 4, 'F', 15),
            ("G   2NOT     2  1 ", 4, 'F', 15),
            ("G   2NOT     2   0", 5, 'R', 15),
            ("G   2NOT     2   4", 5, 'R', 15),
            // The count does not fit the kind.
            ("G   2NOT     2   1   1", 7, 'R', 6),
            ("G   2BUF     2   1   1   1   1", 7, 'R', 6),
            ("G   2AND     2   1", 7, 'R', 6),
            ("G   2OR      2   1", 7, 'R', 6),
            ("G   2XOR     2   1", 7, 'R', 6),
            ("G   2NAND    2   1", 7, 'R', 6),
            ("G   2NOR     2   1", 7, 'R', 6),
            ("G   2XNOR    2   1", 7, 'R', 6),
            // The leftmost of several, the count last.
            ("G   xnand    0   4", 4, 'F', 2),
            ("G   3nand    0   4", 6, 'R', 2),
            ("G   2nand    0   4", 7, 'R', 6),
            ("G   2nand    x   4", 7, 'R', 6),
            ("G   2NAND    x   4", 4, 'F', 10),
            ("G   2NAND    0   x", 5, 'R', 10),
            ("G   2NAND    2   4", 5, 'R', 15),
            ("G   2NAND    2  x ", 4, 'F', 15),
            ("G   2NOT     2   0   x", 5, 'R', 15),
            ("G   2NOT     2   1   4", 5, 'R', 19),
        ],
    )?;
    check_refused(
        &rt,
        rt.alloc(),
        4,
        &[
            ("O   3", 2, 'R', 1),
            ("G   2AND     1   1   2", 6, 'R', 2),
            ("G   4AND     1   1   2", 6, 'R', 2),
            ("G   3 AND    1   1   2", 7, 'R', 6),
            ("G   3and     1   1   2", 7, 'R', 6),
            ("G   3AND     1   4   x", 5, 'R', 15),
            ("G   3AND     1   1   x", 4, 'F', 19),
            ("G   3AND     1   1   4", 5, 'R', 19),
            ("G   3AND     1   1   2  03", 4, 'F', 23),
            ("G   3AND     1   1   2   4", 5, 'R', 23),
            ("G   3AND     1   1   2   3    ", 4, 'F', 27),
            ("G   3AND     1   1   2   3   0", 5, 'R', 27),
            ("G   3AND     1   1", 7, 'R', 6),
        ],
    )
}

// Texts in the place of a record that are no fault of it: a later record's fault, or none.
#[test]
fn records_that_are_taken(rt: HostRuntime) -> Result<(), Fail> {
    let table: [(usize, &str, Result<usize, Told>); 14] = [
        (1, "N 256   2   1", Err((2, 'R', 3, 1))),
        (1, "N 256 768 256", Err((2, 'R', 3, 1))),
        (1, "N   1   1   1", Err((2, 'R', 4, 1))),
        (1, "N   1 768   1", Err((2, 'R', 5, 1))),
        (1, "N   1   2 256", Err((2, 'R', 6, 1))),
        (3, "G   2NOT     1   1", Ok(70)),
        (3, "G   2BUF 65535   1", Ok(70)),
        (3, "G   2NOT     2   3", Ok(70)),
        (3, "G   2XNOR    2   1   3", Ok(74)),
        (3, "G   2OR      2   1   2   3", Ok(78)),
        (3, "G   2NAND    2   1   1   1   1", Ok(82)),
        (4, "G   3BUF     1   2", Ok(66)),
        (5, "O   1", Ok(70)),
        (5, "O   2", Ok(70)),
    ];
    for (record, text, expected) in table {
        let deck = with_record(rt.alloc(), record, text)?;
        check_outcome(&rt, &deck, expected, text);
    }
    Ok(())
}

#[test]
fn faults_of_whole_decks(rt: HostRuntime) -> Result<(), Fail> {
    let table: [(&str, Told); 16] = [
        ("", (1, 'R', 1, 1)),
        ("X", (1, 'R', 1, 1)),
        ("\n", (2, 'R', 1, 1)),
        ("E\n", (2, 'R', 1, 1)),
        ("I   1\nN   1   1   1\n", (2, 'R', 1, 1)),
        ("N   1   1   1\n", (1, 'R', 2, 1)),
        ("N   1   1   1\nX", (1, 'R', 2, 1)),
        ("N   1   1   1\nN   1   1   1\n", (2, 'R', 2, 1)),
        (
            "N   1   1   1\nI   1\nG   2NOT     1   1\nO   2\n",
            (1, 'R', 5, 1),
        ),
        (
            "N   1   1   1\nI   1\nG   2NOT     1   1\nO   2\nE",
            (1, 'R', 5, 1),
        ),
        // Gates that no input reaches: the lowest is told, and any fault of a record comes before it.
        (
            "N   1   1   1\nI   1\nG   2NOT     1   2\nO   2\nE\n",
            (9, 'N', 3, 1),
        ),
        (
            "N   1   1   1\nI   1\nG   2NOT     1   2\nO   3\nE\n",
            (5, 'R', 4, 2),
        ),
        (
            "N   1   1   1\nI   1\nG   2NOT     1   2\nO   2\nE",
            (1, 'R', 5, 1),
        ),
        (
            "N   2   1   1\nI   1\nI   2\nG   3NOT     1   3\nO   3\nE\n",
            (9, 'N', 4, 1),
        ),
        (
            "N   1   3   1\nI   1\nG   2BUF     1   1\nG   3NOT     1   4\nG   4NOT     1   3\nO   2\nE\n",
            (9, 'N', 4, 1),
        ),
        (
            "N   1   2   1\nI   1\nG   2NOT     1   3\nG   3AND     1   3   3\nO   3\nE\n",
            (9, 'N', 3, 1),
        ),
    ];
    for (deck, fault) in table {
        check_outcome(&rt, deck.as_bytes(), Err(fault), deck);
    }
    check_outcome(&rt, BASE, Ok(70), "the base deck");
    Ok(())
}
