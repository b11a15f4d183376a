// Small jobs and their listings, text against text.
use super::base::check_listing;
use std::test::Fail;

// What a job is, its deck with its stimulus, and its listing.
type Job = (&'static str, &'static str, &'static str);

const JOBS: [Job; 12] = [
    (
        "a pulse, since one path is slow",
        "\
N   1   2   1
I   1
G   2NOT     2   1
G   3AND     1   1   2
O   3
E
F   1         0 0
F   1        10 1
H   1        20
E
",
        "\
L   3        21   3
C         1 0
C        11 1
C        13 0
",
    ),
    (
        "a latch, set, kept, reset, kept",
        "\
N   2   2   2
I   1
I   2
G   3NOR     1   2   4
G   4NOR     1   1   3
O   3
O   4
E
F   1         0 1
F   2         0 0
F   1        10 0
F   2        20 1
F   2        30 0
H   1        40
H   2        40
E
",
        "\
L   3        41   2
C         2 1
C        21 0
L   4        41   2
C         1 0
C        22 1
",
    ),
    (
        "a latch that nothing sets stays at X",
        "\
N   2   2   2
I   1
I   2
G   3NOR     1   2   4
G   4NOR     3   1   3
O   3
O   4
E
F   1         0 0
F   2         5 0
H   1        30
H   2        30
E
",
        "\
L   3        31   0
L   4        33   0
",
    ),
    (
        "loops: one that X never leaves, one that an input breaks, one that swings once it is let go",
        "\
N   1   3   3
I   1
G   2XOR     1   1   2
G   3AND     2   1   3
G   4NAND    3   1   4
O   2
O   3
O   4
E
F   1         2 0
F   1        20 1
H   1        30
E
",
        "\
L   2        31   0
L   3        32   1
C         4 0
L   4        33   5
C         5 1
C        23 0
C        26 1
C        29 0
C        32 1
",
    ),
    (
        "all kinds, of each two values",
        "\
N   2   8   8
I   1
I   2
G   3BUF     1   1
G   4NOT     1   1
G   5AND     1   1   2
G   6OR      1   1   2
G   7XOR     1   1   2
G   8NAND    1   1   2
G   9NOR     1   1   2
G  10XNOR    1   1   2
O   3
O   4
O   5
O   6
O   7
O   8
O   9
O  10
E
F   1         0 0
F   2         0 0
F   2         1 1
F   2         2 X
F   1         3 1
F   2         3 0
F   2         4 1
F   2         5 X
F   1         6 X
F   2         6 0
F   2         7 1
F   2         8 X
H   1         9
E
",
        "\
L   3        10   3
C         1 0
C         4 1
C         7 X
L   4        10   3
C         1 1
C         4 0
C         7 X
L   5        10   5
C         1 0
C         5 1
C         6 X
C         7 0
C         8 X
L   6        10   7
C         1 0
C         2 1
C         3 X
C         4 1
C         7 X
C         8 1
C         9 X
L   7        10   6
C         1 0
C         2 1
C         3 X
C         4 1
C         5 0
C         6 X
L   8        10   5
C         1 1
C         5 0
C         6 X
C         7 1
C         8 X
L   9        10   7
C         1 1
C         2 0
C         3 X
C         4 0
C         7 X
C         8 0
C         9 X
L  10        10   6
C         1 1
C         2 0
C         3 X
C         4 0
C         5 1
C         6 X
",
    ),
    (
        "folds of three and four lines, and of one line twice",
        "\
N   4   5   5
I   1
I   2
I   3
I   4
G   5NAND    1   2   3   4
G   6NOR     2   1   2   3   4
G   7XNOR    3   1   2   3   4
G   8OR  65535   2   3   4
G   9XOR     1   1   1
O   5
O   6
O   7
O   8
O   9
E
F   1         0 0
F   2         0 0
F   3         0 0
F   4         0 0
F   4         1 1
F   3         2 1
F   2         3 1
F   1         4 1
F   4         5 X
F   4         6 0
F   2         7 X
F   2         8 0
H   1         9
H   2         9
H   3         9
H   4         9
E
",
        "\
L   5        10   4
C         1 1
C         4 0
C         6 X
C         7 1
L   6        11   2
C         2 1
C         3 0
L   7        12   9
C         3 1
C         4 0
C         5 1
C         6 0
C         7 1
C         8 X
C         9 0
C        10 X
C        11 1
L   8     65544   2
C     65535 0
C     65536 1
L   9        10   1
C         1 0
",
    ),
    (
        "outputs in an order of their own: an input, a line named twice, lines that are none's output",
        "\
N   2   3   4
I   1
I   2
G   3OR      4   1   2
G   4NOT     1   3
G   5BUF     7   4
O   5
O   3
O   1
O   3
E
F   2         0 1
F   1         0 0
F   2         3 0
H   2         6
F   1         9 1
E
",
        "\
L   5        18   2
C        12 0
C        15 1
L   3        10   2
C         4 1
C         7 0
L   1        10   2
C         0 0
C         9 1
L   3        10   2
C         4 1
C         7 0
",
    ),
    (
        "an input that is never given holds back what reads it",
        "\
N   2   3   5
I   1
I   2
G   3AND     5   1   2
G   4NOT     9   1
G   5OR      2   3   4
O   1
O   2
O   3
O   4
O   5
E
F   1         0 0
F   1         3 1
H   1        50
E
",
        "\
L   1        50   2
C         0 0
C         3 1
L   2         0   0
L   3         5   0
L   4        59   2
C         9 1
C        12 0
L   5         7   0
",
    ),
    (
        "nothing is given at all",
        "\
N   1   2   3
I   1
G   2NOT     2   1
G   3NAND65535   2   3
O   1
O   2
O   3
E
E
",
        "\
L   1         0   0
L   2         2   0
L   3     65537   0
",
    ),
    (
        "a hold alone gives X",
        "\
N   1   1   2
I   1
G   2NOT     3   1
O   1
O   2
E
H   1         0
H   1         8
H   1         8
E
",
        "\
L   1         8   0
L   2        11   0
",
    ),
    (
        "X is fed, and values that a line has already",
        "\
N   1   2   3
I   1
G   2BUF     2   1
G   3XOR     1   1   2
O   1
O   2
O   3
E
F   1         0 X
F   1         1 0
F   1         2 0
F   1         4 X
F   1         5 X
F   1         9 1
H   1        10
F   1        10 1
F   1        11 X
E
",
        "\
L   1        12   4
C         1 0
C         4 X
C         9 1
C        11 X
L   2        14   4
C         3 0
C         6 X
C        11 1
C        13 X
L   3        13   2
C         4 0
C         5 X
",
    ),
    (
        "the last tick, and the longest delays behind it",
        "\
N   2   3   4
I   1
I   2
G   3BUF 65535   1
G   4NOT 65535   3
G   5AND 65535   4   2
O   1
O   3
O   4
O   5
E
F   21999999998 1
F   21999999999 X
F   1 999999999 0
F   11999999999 1
H   12000000000
H   22000000000
E
",
        "\
L   12000000000   2
C 999999999 0
C1999999999 1
L   32000065535   2
C1000065534 0
C2000065534 1
L   42000131070   2
C1000131069 1
C2000131069 0
L   52000065535   2
C2000065533 1
C2000065534 X
",
    ),
];

#[test]
fn small_jobs(rt: HostRuntime) -> Result<(), Fail> {
    for (what, job, listing) in JOBS {
        check_listing(&rt, rt.alloc(), job.as_bytes(), listing.as_bytes(), what)?;
    }
    Ok(())
}
