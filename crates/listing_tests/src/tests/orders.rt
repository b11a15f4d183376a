// One job in several orders of its records.
use super::base::{DECK, check_listing, joined, listed};
use arrayvec::ArrayVec;
use listing::lister::list;
use listing::sink::Writing;
use std::test::Fail;

// A set and reset latch, and a gate that reads all inputs.
const LATCH: &str = "\
N   3   3   3
I   1
I   2
I   3
G   4NOR     1   2   5
G   5NOR     2   1   4
G   6XOR     3   1   2   3
O   6
O   4
O   5
E
";

// The records of each input, in the order that they must have among themselves.
const GIVEN: [&[&str]; 3] = [
    &[
        "F   1         0 1\n",
        "F   1         4 0\n",
        "H   1        40\n",
    ],
    &[
        "F   2         0 0\n",
        "F   2        12 1\n",
        "F   2        20 0\n",
        "F   2        40 1\n",
    ],
    &[
        "F   3         9 1\n",
        "H   3        30\n",
        "F   3        30 X\n",
    ],
];

const LISTING: &str = "\
L   6        34   4
C        12 1
C        15 0
C        23 1
C        33 X
L   4        42   2
C         3 1
C        13 0
L   5        42   2
C         2 0
C        15 1
";

// The orders are told by the inputs whose next record comes, counted from 0.
#[test]
fn records_of_several_inputs_in_any_order(rt: HostRuntime) -> Result<(), Fail> {
    let orders: [[usize; 10]; 6] = [
        [0, 0, 0, 1, 1, 1, 1, 2, 2, 2],
        [2, 2, 2, 1, 1, 1, 1, 0, 0, 0],
        [0, 1, 2, 0, 1, 2, 0, 1, 2, 1],
        [1, 2, 0, 2, 1, 0, 1, 0, 2, 1],
        [1, 1, 1, 1, 0, 2, 0, 2, 0, 2],
        [2, 0, 1, 1, 0, 0, 1, 2, 1, 2],
    ];
    for order in orders {
        let mut job = joined(rt.alloc(), &[LATCH])?;
        let mut given = [0; 3];
        for input in order {
            let place = given.get_mut(input).ok_or("no input")?;
            let records = GIVEN.get(input).ok_or("no input")?;
            let record = records.get(*place).ok_or("no record")?;
            *place += 1;
            job.extend_from_slice(record.as_bytes())?;
        }
        job.extend_from_slice(b"E\n")?;
        check_listing(&rt, rt.alloc(), &job, LISTING.as_bytes(), "another order")?;
    }
    Ok(())
}

// Records that give the same: what a line has already, and holds on the way.
#[test]
fn the_same_given_otherwise(rt: HostRuntime) -> Result<(), Fail> {
    let spellings = [
        "F   1         0 0\nF   1        10 1\nH   1        20\n",
        "H   1         0\nF   1         0 0\nH   1        10\nF   1        10 1\nH   1        20\n",
        "F   1         0 0\nF   1         5 0\nF   1         9 0\nF   1        10 1\nF   1        19 1\n",
        "F   1         0 0\nF   1        10 1\nF   1        11 1\nH   1        12\nH   1        20\nH   1        20\n",
    ];
    for spelling in spellings {
        let job = joined(rt.alloc(), &[DECK, spelling, "E\n"])?;
        check_listing(
            &rt,
            rt.alloc(),
            &job,
            b"L   3        21   3\nC         1 0\nC        11 1\nC        13 0\n",
            spelling,
        )?;
    }
    Ok(())
}

const ALL: &str = "\
L   3         2   1
C         1 0
L   6         4   0
L   4         2   1
C         1 0
L   5         4   0
R  13    8   1 S
L   3         2   1
C         1 0
L   6         4   0
L   4         2   1
C         1 0
L   5         4   0
";

// A listing goes after what the writer has, and is the same each time, whatever was listed before.
#[test]
fn listings_one_after_another(rt: HostRuntime) -> Result<(), Fail> {
    let first = joined(rt.alloc(), &[DECK, "F   1         0 0\nE\n"])?;
    let faulty = joined(
        rt.alloc(),
        &[DECK, "F   1         0 1\nF   1         0 1\n"],
    )?;
    let second = joined(
        rt.alloc(),
        &[
            LATCH,
            "F   2         0 1\nH   1         9\nH   3         9\nE\n",
        ],
    )?;
    let mut all = Writing(Vec::new(rt.alloc()));
    let mut each = Vec::new(rt.alloc());
    for job in [&first, &second, &faulty, &first, &second] {
        list(job, &mut all)?;
        each.extend_from_slice(&listed(rt.alloc(), job)?)?;
    }
    assert!(rt; all.0 == each);
    assert_eq!(rt; str::from_utf8(&all.0)?, ALL);
    Ok(())
}

// A vector that has no room for a row refuses it: the error is told, and what it took before stands.
#[test]
fn a_vector_that_is_full(rt: HostRuntime) -> Result<(), Fail> {
    let job = joined(
        rt.alloc(),
        &[DECK, "F   1         0 1\nH   1        20\nE\n"],
    )?;
    let mut short: ArrayVec<u8, 33> = ArrayVec::new();
    assert!(rt; list(&job, &mut short).is_err());
    assert_eq!(rt; str::from_utf8(&short)?, "L   3        21   1\n");
    let faulty = joined(rt.alloc(), &[DECK, "X\n"])?;
    let mut short: ArrayVec<u8, 16> = ArrayVec::new();
    assert!(rt; list(&faulty, &mut short).is_err());
    assert!(rt; short.is_empty());
    let mut enough: ArrayVec<u8, 17> = ArrayVec::new();
    list(&faulty, &mut enough)?;
    assert_eq!(rt; str::from_utf8(&enough)?, "R   2    7   1 R\n");
    Ok(())
}
