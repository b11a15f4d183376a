// Lists of events and what is read from them, by tables.
use events::events::{Around, Events};
use events::list::EventList;
use events::record::EventRecord;
use std::process::Abort;
use std::test::Fail;
use values::ternary::Ternary;
use values::ternary::Ternary::{One, X, Zero};

// What is done to a list; a record is taken or not.
#[derive(Clone, Copy, Debug)]
enum Step {
    Clear(u32, Ternary),
    Take(u32, Ternary),
    Refuse(u32, Ternary),
    DropBelow(u32),
}

use Step::{Clear, DropBelow, Refuse, Take};

// The fillers of clearing and of dropping differ, so that each is seen.
const CLEARED: EventRecord<Ternary> = EventRecord { tick: 98, value: X };

const DROPPED: EventRecord<Ternary> = EventRecord {
    tick: 99,
    value: Zero,
};

fn at(tick: u32, value: Ternary) -> EventRecord<Ternary> {
    EventRecord { tick, value }
}

// How many changes a list in the records keeps after a step.
fn after(
    rt: &impl Abort,
    records: &mut [EventRecord<Ternary>; 4],
    kept: usize,
    step: Step,
) -> usize {
    assert!(rt; kept < 4);
    let mut list = EventList { records, kept };
    match step {
        Clear(tick, value) => list.clear(at(tick, value), CLEARED),
        Take(tick, value) => assert!(rt; list.record(tick, value), "{step:?}"),
        Refuse(tick, value) => assert!(rt; !list.record(tick, value), "{step:?}"),
        DropBelow(tick) => list.drop_below(tick, DROPPED),
    }
    list.kept
}

#[test]
fn keeps_records_exactly(rt: HostRuntime) -> Result<(), Fail> {
    let (c, d) = (CLEARED, DROPPED);
    let table = [
        (Clear(0, X), 0, [at(0, X), c, c, c]),
        (Take(1, X), 0, [at(0, X), c, c, c]),
        (Take(2, One), 1, [at(0, X), at(2, One), c, c]),
        (Take(3, One), 1, [at(0, X), at(2, One), c, c]),
        (Take(5, Zero), 2, [at(0, X), at(2, One), at(5, Zero), c]),
        (DropBelow(1), 2, [at(1, X), at(2, One), at(5, Zero), c]),
        (Take(7, X), 3, [at(1, X), at(2, One), at(5, Zero), at(7, X)]),
        (Take(8, X), 3, [at(1, X), at(2, One), at(5, Zero), at(7, X)]),
        (
            Refuse(8, One),
            3,
            [at(1, X), at(2, One), at(5, Zero), at(7, X)],
        ),
        (
            DropBelow(2),
            3,
            [at(2, X), at(2, One), at(5, Zero), at(7, X)],
        ),
        (DropBelow(4), 2, [at(4, One), at(5, Zero), at(7, X), d]),
        (DropBelow(5), 2, [at(5, One), at(5, Zero), at(7, X), d]),
        (
            Take(7, One),
            3,
            [at(5, One), at(5, Zero), at(7, X), at(7, One)],
        ),
        (DropBelow(7), 2, [at(7, Zero), at(7, X), at(7, One), d]),
        (DropBelow(8), 0, [at(8, One), d, d, d]),
        (Take(9, Zero), 1, [at(8, One), at(9, Zero), d, d]),
        (Clear(3, One), 0, [at(3, One), c, c, c]),
        (Take(0, X), 1, [at(3, One), at(0, X), c, c]),
        (DropBelow(0), 1, [at(0, One), at(0, X), c, c]),
    ];
    let mut records = [d; 4];
    let mut kept = 3;
    for (step, want_kept, want) in table {
        kept = after(&rt, &mut records, kept, step);
        assert_eq!(rt; (kept, records), (want_kept, want), "{step:?}");
    }
    Ok(())
}

#[test]
fn reads_what_is_around(rt: HostRuntime) -> Result<(), Fail> {
    let base = at(3, X);
    let changes = [at(2, One), at(5, Zero), at(7, X)];
    let events = Events {
        base,
        changes: &changes,
    };
    let table = [
        (0, base, Some(changes[0]), 2),
        (1, base, Some(changes[0]), 2),
        (2, changes[0], Some(changes[1]), 5),
        (4, changes[0], Some(changes[1]), 5),
        (5, changes[1], Some(changes[2]), 6),
        (7, changes[2], None, 6),
        (u32::MAX, changes[2], None, 6),
    ];
    for (tick, last, next, until) in table {
        let around = events.around(tick);
        assert_eq!(rt; around, Around { last, next }, "at {tick}");
        assert_eq!(rt; around.until(6), until, "at {tick}");
    }
    let none = Events { base, changes: &[] };
    assert_eq!(rt;
        none.around(9),
        Around {
            last: base,
            next: None
        }
    );
    assert_eq!(rt; (events.last(), none.last()), (changes[2], base));
    Ok(())
}
