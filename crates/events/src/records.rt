// Work on bare records.
ghost use Rattle.std.specs.Prelude.{◌≡◌, ◌<◌, ◌≤◌, ◌-◌, suc, take, drop, length, replicate};
ghost use Rattle.std.specs.List.Sorted.{IsNonDecreasingBy, IsPartitionPoint};
ghost use Rattle.std.proofs.Math.Seq.{paste};
ghost use Rattle.events.specs.Recording.{Dropped};

use crate::record::EventRecord;
use values::element::Element;

// How many changes come at or before a tick. The place is found by bisection.
pub(crate) fn changes_up_to<E: Element>(changes: &[EventRecord<E>], tick: u32) -> usize
    ensures within { result ≤ length changes.now }
    ensures parts_them { IsNonDecreasingBy (λ change. change.tick) changes.now → IsPartitionPoint (λ change. change.tick ≤ tick) (λ change. tick < change.tick) changes.now result }
{
    changes.partition_point(|change| change.tick <= tick)
}

// Fills the records from a place up to another.
pub(crate) fn fill<E: Copy>(
    records: &mut [EventRecord<E>],
    from: usize,
    to: usize,
    filler: EventRecord<E>,
)
    requires { (from ≤ to) × (to ≤ length records.old) }
    ensures { records.new ≡ paste records.old from (replicate (to - from) filler) (to - from) }
{
    for place in from..to {
        records[place] = filler;
    }
}

// How many of the kept changes come before a tick.
fn changes_before<E: Element>(records: &[EventRecord<E>], kept: usize, tick: u32) -> usize
    requires { kept < length records.now }
    ensures within { result ≤ kept }
    ensures parts_them { IsNonDecreasingBy (λ change. change.tick) (drop 1 (take (suc kept) records.now)) → IsPartitionPoint (λ change. change.tick < tick) (λ change. tick ≤ change.tick) (drop 1 (take (suc kept) records.now)) result }
{
    match tick.checked_sub(1) {
        Some(before) => changes_up_to(&records[1..=kept], before),
        None => 0,
    }
}

// Drops the changes below a tick from records in use, and tells how many stay.
pub(crate) fn drop_below<E: Element>(
    records: &mut [EventRecord<E>],
    kept: usize,
    tick: u32,
    filler: EventRecord<E>,
) -> usize
    requires { kept < length records.old }
    ensures within { result ≤ kept }
    ensures dropped { IsNonDecreasingBy (λ change. change.tick) (drop 1 (take (suc kept) records.old)) → Dropped tick filler (take (suc kept) records.old) (drop (suc kept) records.old) (take (suc result) records.new) (drop (suc result) records.new) }
{
    let dropped = changes_before(records, kept, tick);
    let value = records[dropped].value;
    records[0] = EventRecord { tick, value };
    records.copy_within(dropped + 1..kept + 1, 1);
    fill(records, kept - dropped + 1, kept + 1, filler);
    kept - dropped
}
