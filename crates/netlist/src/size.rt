// How large a netlist is.

// How many inputs, gates and outputs a netlist has, or is to have.
#[derive(Clone, Copy, PartialEq, Eq, Debug, Default)]
pub struct Size {
    pub inputs: usize,
    pub gates: usize,
    pub outputs: usize,
}
