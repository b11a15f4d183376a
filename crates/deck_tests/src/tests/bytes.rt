// The base deck with bytes after its end, cut short, and with single bytes put in.
use super::base::{BASE, Told, check_outcome};
use std::process::Abort;
use std::test::Fail;

#[test]
fn bytes_after_the_end_are_left(rt: HostRuntime) -> Result<(), Fail> {
    let tails: [&[u8]; 8] = [
        b"",
        b"\n",
        b"E",
        b"E\n",
        b"X   1\n",
        b"\0\r\xff",
        b"O   3\nE\n",
        BASE,
    ];
    for tail in tails {
        let mut deck = BASE.to_vec(rt.alloc())?;
        deck.extend_from_slice(tail)?;
        check_outcome(&rt, &deck, Ok(70), "bytes after the end");
    }
    Ok(())
}

#[test]
fn a_deck_cut_short(rt: HostRuntime) -> Result<(), Fail> {
    // The lengths at which the bytes end in each record.
    let table = [
        (1, 0, 14),
        (2, 14, 20),
        (3, 20, 39),
        (4, 39, 62),
        (5, 62, 68),
        (6, 68, 70),
    ];
    for (record, first, end) in table {
        for length in first..end {
            let deck = BASE.get(0..length).ok_or("past the deck")?;
            check_outcome(&rt, deck, Err((1, 'R', record, 1)), "cut short");
        }
    }
    Ok(())
}

// Puts each of the bytes at the positions from the first on and below the end, one at a time.
fn check_put(
    rt: &impl Abort,
    bytes: &[u8],
    first: usize,
    end: usize,
    fault: Told,
) -> Result<(), Fail> {
    for at in first..end {
        for byte in bytes {
            let mut deck = *BASE;
            *deck.get_mut(at).ok_or("past the deck")? = *byte;
            check_outcome(rt, &deck, Err(fault), "a byte put in");
        }
    }
    Ok(())
}

#[test]
fn foreign_bytes_in_each_position(rt: HostRuntime) -> Result<(), Fail> {
    // The positions of each letter, field and ending; without the ending two records join.
    let table = [
        (0, 1, (2, 'R', 1, 1)),
        (1, 5, (4, 'F', 1, 2)),
        (5, 9, (4, 'F', 1, 6)),
        (9, 13, (4, 'F', 1, 10)),
        (13, 14, (3, 'R', 1, 1)),
        (14, 15, (2, 'R', 2, 1)),
        (15, 19, (4, 'F', 2, 2)),
        (19, 20, (3, 'R', 2, 1)),
        (20, 21, (2, 'R', 3, 1)),
        (21, 25, (4, 'F', 3, 2)),
        (25, 29, (7, 'R', 3, 6)),
        (29, 34, (4, 'F', 3, 10)),
        (34, 38, (4, 'F', 3, 15)),
        (38, 39, (3, 'R', 3, 1)),
        (39, 40, (2, 'R', 4, 1)),
        (40, 44, (4, 'F', 4, 2)),
        (44, 48, (7, 'R', 4, 6)),
        (48, 53, (4, 'F', 4, 10)),
        (53, 57, (4, 'F', 4, 15)),
        (57, 61, (4, 'F', 4, 19)),
        (61, 62, (3, 'R', 4, 1)),
        (62, 63, (2, 'R', 5, 1)),
        (63, 67, (4, 'F', 5, 2)),
        (67, 68, (3, 'R', 5, 1)),
        (68, 69, (2, 'R', 6, 1)),
        (69, 70, (1, 'R', 6, 1)),
    ];
    for (first, end, fault) in table {
        check_put(&rt, &[0, 13, 255], first, end, fault)?;
    }
    Ok(())
}

#[test]
fn byte_10_in_each_position(rt: HostRuntime) -> Result<(), Fail> {
    // The positions of each letter, and of what follows it. After the first line of the AND it leaves a record
    // of a right length.
    let table = [
        (0, 1, (2, 'R', 1, 1)),
        (1, 13, (3, 'R', 1, 1)),
        (14, 15, (2, 'R', 2, 1)),
        (15, 19, (3, 'R', 2, 1)),
        (20, 21, (2, 'R', 3, 1)),
        (21, 38, (3, 'R', 3, 1)),
        (39, 40, (2, 'R', 4, 1)),
        (40, 57, (3, 'R', 4, 1)),
        (57, 58, (7, 'R', 4, 6)),
        (58, 61, (3, 'R', 4, 1)),
        (62, 63, (2, 'R', 5, 1)),
        (63, 67, (3, 'R', 5, 1)),
        (68, 69, (2, 'R', 6, 1)),
    ];
    for (first, end, fault) in table {
        check_put(&rt, b"\n", first, end, fault)?;
    }
    Ok(())
}
