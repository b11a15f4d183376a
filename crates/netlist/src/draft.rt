// A draft: a netlist in the making.
ghost use Rattle.std.specs.Prelude.{◌≡◌, ◌+◌, ◌<◌, ◌≤◌, true, length, take};
ghost use Rattle.std.specs.List.{list_all};
ghost use Rattle.netlist.specs.Gates.{legal, on_lines};
ghost use Rattle.netlist.specs.Rows.{HasPlaces, gates_of};

use crate::row::GateRow;
use crate::size::Size;

pub mod adding;
pub mod closing;
pub mod judging;
pub mod opening;
mod search;
mod walking;

// The size that it was opened for (0 in a dead draft), and how many rows and outputs are filled so far. Plain tables with
// counts, since all their rows are made at once, each as an empty one.
#[derive(Drop)]
pub struct Draft {
    size: Size,
    drawn: usize,
    named: usize,
    rows: [GateRow; 768],
    ends: [u32; 256],
    ghost table: { length rows ≡ 768 },
    ghost list: { length ends ≡ 256 },
    ghost places: { HasPlaces size },
    ghost gates_drawn: { drawn ≤ size.gates },
    ghost outputs_named: { named ≤ size.outputs },
    ghost outputs_last: { (0 < named → drawn ≡ size.gates) },
    ghost wired: { list_all (legal (size.inputs + size.gates)) (gates_of drawn rows) ≡ true },
    ghost ends_on_lines: { on_lines (size.inputs + size.gates) (take named ends) ≡ true },
}
