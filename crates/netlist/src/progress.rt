// How far lines have come.

// How far a line has come in a session: the tick of an input's end or of a gate's front, and how many changes of the line
// are kept.
#[derive(Clone, Copy, PartialEq, Eq, Debug, Default)]
pub struct Progress {
    pub tick: u32,
    pub kept: usize,
}
