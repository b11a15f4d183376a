// The records of a session's lines.
ghost use Rattle.std.specs.Prelude.{◌≡◌, ◌↔◌, ◌-◌, ◌*◌, ◌<◌, ◌∷◌, length, suc, take, drop, None, slice_set};
ghost use Rattle.std.specs.Option.{unwrap_or};
ghost use Rattle.engine.specs.Lines.{panel, Holds};
ghost use Rattle.engine.specs.Panels.{IsLineOf};
ghost use Rattle.engine.specs.Recordings.{RecordedIn, DroppedIn, begun, OnlyThere};
ghost use Rattle.engine.specs.Stores.{part};

use crate::lines::Lines;
use events::events::Events;
use events::list::EventList;
use events::record::EventRecord;
use values::system::ValueSystem;

// The events of a line.
pub(crate) fn events_of<'a, V: ValueSystem>(
    lines: &Lines,
    store: &'a [EventRecord<V>],
    line: u32,
) -> Events<'a, V>
    requires a_line { IsLineOf (panel lines.now) line }
    requires holds { Holds (panel lines.now) store.now }
    ensures { result.base ∷ result.changes.now ≡ take (suc ((panel lines.now).progress line).kept) (part lines.now.stride line store.now) }
{
    let place = lines.place(line);
    let kept = lines.progress(line).kept;
    Events {
        base: store[place],
        changes: &store[place + 1..=place + kept],
    }
}

// Records in a line's part that there is a value from a tick on, and tells how many changes are kept then, if there is room.
fn record_in<V: ValueSystem>(
    part: &mut [EventRecord<V>],
    kept: usize,
    tick: u32,
    value: V,
) -> Option<usize>
    requires { kept < length part.old }
    ensures same_length { length part.new ≡ length part.old }
    ensures recorded { RecordedIn V.Alike kept (record { tick = tick; value = value }) part.old result part.new }
    ensures fits { unwrap_or result kept < length part.new }
{
    let mut list = EventList {
        records: part,
        kept,
    };
    if list.record(tick, value) {
        Some(list.kept)
    } else {
        None
    }
}

// The same for a line.
pub(crate) fn record<V: ValueSystem>(
    lines: &Lines,
    store: &mut [EventRecord<V>],
    line: u32,
    tick: u32,
    value: V,
) -> Option<usize>
    requires a_line { IsLineOf (panel lines.now) line }
    requires holds { Holds (panel lines.now) store.old }
    ensures only_there { OnlyThere ((line - 1) * lines.now.stride) lines.now.stride store.old store.new }
    ensures refused_alters_nothing { result ≡ None → store.new ≡ store.old }
    ensures recorded { RecordedIn V.Alike ((panel lines.now).progress line).kept (record { tick = tick; value = value }) (part lines.now.stride line store.old) result (part lines.now.stride line store.new) }
    ensures fits { unwrap_or result ((panel lines.now).progress line).kept < lines.now.stride }
    ensures alike_is_same { (x y : V) → V.Alike x y ↔ (V.meaning x ≡ V.meaning y) }
{
    // Lists compare elements, and SAME promises that so are meanings.
    value.same(value);
    let place = lines.place(line);
    let kept = lines.progress(line).kept;
    record_in(&mut store[place..place + lines.stride], kept, tick, value)
}

// Drops the changes below a tick from a line's part, and tells how many stay.
fn drop_in<V: ValueSystem>(
    part: &mut [EventRecord<V>],
    kept: usize,
    tick: u32,
    filler: EventRecord<V>,
) -> usize
    requires { kept < length part.old }
    ensures same_length { length part.new ≡ length part.old }
    ensures dropped { DroppedIn tick filler kept part.old result part.new }
    ensures fits { result < length part.new }
{
    let mut list = EventList {
        records: part,
        kept,
    };
    list.drop_below(tick, filler);
    list.kept
}

// The same for a line.
pub(crate) fn drop_below<V: ValueSystem>(
    lines: &Lines,
    store: &mut [EventRecord<V>],
    line: u32,
    tick: u32,
) -> usize
    requires a_line { IsLineOf (panel lines.now) line }
    requires holds { Holds (panel lines.now) store.old }
    ensures only_there { OnlyThere ((line - 1) * lines.now.stride) lines.now.stride store.old store.new }
    ensures dropped { DroppedIn tick (record { tick = 0; value = V.START }) ((panel lines.now).progress line).kept (part lines.now.stride line store.old) result (part lines.now.stride line store.new) }
    ensures fits { result < lines.now.stride }
{
    let place = lines.place(line);
    let kept = lines.progress(line).kept;
    let filler = at_start(V::START);
    drop_in(&mut store[place..place + lines.stride], kept, tick, filler)
}

// A record at tick 0.
fn at_start<V>(value: V) -> EventRecord<V>
    ensures { result ≡ record { tick = 0; value = value } }
{
    EventRecord { tick: 0, value }
}

// Begins a line's part with a value at tick 0 and no change.
fn begin_in<V: ValueSystem>(part: &mut [EventRecord<V>], value: V)
    requires { 0 < length part.old }
    ensures same_length { length part.new ≡ length part.old }
    ensures begins { part.new ≡ begun part.old value V.START }
{
    let mut list = EventList {
        records: part,
        kept: 0,
    };
    list.clear(at_start(value), at_start(V::START));
}

// The same for a line.
pub(crate) fn begin<V: ValueSystem>(
    lines: &Lines,
    store: &mut [EventRecord<V>],
    line: u32,
    value: V,
)
    requires a_line { IsLineOf (panel lines.now) line }
    requires holds { Holds (panel lines.now) store.old }
    ensures only_there { OnlyThere ((line - 1) * lines.now.stride) lines.now.stride store.old store.new }
    ensures begins { part lines.now.stride line store.new ≡ begun (part lines.now.stride line store.old) value V.START }
{
    let place = lines.place(line);
    begin_in(&mut store[place..place + lines.stride], value);
}

// Gives a line's part another value at tick 0.
pub(crate) fn rebase<V: ValueSystem>(
    lines: &Lines,
    store: &mut [EventRecord<V>],
    line: u32,
    value: V,
)
    requires a_line { IsLineOf (panel lines.now) line }
    requires holds { Holds (panel lines.now) store.old }
    ensures only_there { OnlyThere ((line - 1) * lines.now.stride) lines.now.stride store.old store.new }
    ensures begins { part lines.now.stride line store.new ≡ slice_set (part lines.now.stride line store.old) 0 (record { tick = 0; value = value }) }
{
    let place = lines.place(line);
    store[place] = at_start(value);
}
