// Stores: how they stand before a session, and what stands in them after it.
use crate::answer::{Answer, Asked};
use crate::counts::count;
use crate::level::{Level, Spelled, System};
use crate::stop::{Stop, compare};
use crate::trial::Trial;
use events::record::EventRecord;
use std::alloc::AllocError;
use tickwise::session::Change;

// The tick of a record that is not written yet, which no session writes.
const UNTOUCHED: u32 = 4_000_000_077;

// A record that no session writes.
fn untouched(system: System) -> Change<Level> {
    let value = match system {
        System::Two | System::Three => Level::High,
        System::Lanes => Level::Word(0x1234_5678_9abc_def0),
    };
    Change {
        tick: UNTOUCHED,
        value,
    }
}

// So many records that are not written yet.
pub fn blank<V: Spelled>(
    trial: &Trial,
    system: System,
    records: usize,
) -> Result<Vec<EventRecord<V>>, AllocError> {
    let Change { tick, value } = untouched(system);
    let mut store = Vec::new(trial.alloc);
    for _record in 0..records {
        let value = V::of(value);
        store.push(EventRecord { tick, value })?;
    }
    Ok(store)
}

// Compares a store, record by record, with what must stand in it; the records after that must be as they were.
pub fn compare_store<V: Spelled, R: Spelled>(
    trial: &mut Trial,
    system: System,
    store: &[EventRecord<V>],
    expected: &[Change<R>],
) -> Result<(), Stop> {
    for (place, record) in store.iter().enumerate() {
        let Change { tick, value } = match expected.get(place) {
            Some(Change { tick, value }) => Change {
                tick: *tick,
                value: value.level(),
            },
            None => untouched(system),
        };
        let answer = Answer::Change {
            tick: record.tick,
            value: record.value.level(),
        };
        compare(Asked::Record(place), answer, Answer::Change { tick, value })?;
        count(&mut trial.counts.records);
        if expected.len() <= place {
            count(&mut trial.counts.untouched);
        }
    }
    count(&mut trial.counts.stores);
    Ok(())
}
