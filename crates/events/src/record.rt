// A record of an event.

// A tick, and the value from there on.
#[derive(Clone, Copy, PartialEq, Eq, Debug)]
pub struct EventRecord<E> {
    pub tick: u32,
    pub value: E,
}
