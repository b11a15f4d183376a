// Where a reader stands in a deck.

// What comes next: the header, an input, a gate, an output, the end; or nothing, after the end.
#[derive(Clone, Copy, PartialEq, Eq, Debug)]
pub enum Phase {
    Header,
    // So many inputs were told so far.
    Inputs { told: usize },
    Gates,
    Outputs,
    End,
    Done,
}
