// The closed netlist, which no longer grows.
ghost use Rattle.std.specs.Prelude.{◌≡◌, ℕ, ◌+◌, ◌<◌, ◌≤◌, true, length, take, IfSome, ◌≢◌, slice_index_or};
ghost use Rattle.std.specs.List.{list_all};
ghost use Rattle.netlist.specs.GateRow.{empty};
ghost use Rattle.netlist.specs.Gates.{legal, on_lines};
ghost use Rattle.netlist.specs.Rows.{HasPlaces, gates_of, circuit_of};
ghost use Rattle.netlist.specs.Walks.{Reached, Looped};

use crate::progress::Progress;
use crate::row::{GateRow, row_of_line};
use crate::size::Size;

// A netlist whose gates are all reached by an input, with its looped gates marked; or the empty one,
// which has no lines. Its tables are those of the draft, which are moved here.
#[derive(Drop)]
pub struct Netlist {
    pub(crate) size: Size,
    pub(crate) rows: [GateRow; 768],
    pub(crate) ends: [u32; 256],
    ghost table: { length rows ≡ 768 },
    ghost list: { length ends ≡ 256 },
    ghost places: { HasPlaces size },
    ghost wired: { list_all (legal (size.inputs + size.gates)) (gates_of size.gates rows) ≡ true },
    ghost ends_on_lines: { on_lines (size.inputs + size.gates) (take size.outputs ends) ≡ true },
    ghost reached: { ((k : ℕ) → k < size.gates → ∥ Reached (circuit_of size rows ends) (size.inputs + 1 + k) ∥₁) },
    ghost marked_looped: { ((k : ℕ) → k < size.gates → (slice_index_or rows k empty).looped ≡ true → ∥ Looped (circuit_of size rows ends) (size.inputs + 1 + k) ∥₁) },
    ghost looped_marked: { ((k : ℕ) → k < size.gates → Looped (circuit_of size rows ends) (size.inputs + 1 + k) → (slice_index_or rows k empty).looped ≡ true) },
}

impl Netlist {
    ghost use Rattle.netlist.specs.Closed.{circuit, progress_of, Row, Output, LoopCount};
    ghost use Rattle.netlist.specs.GateRow.{at_start};
    ghost use Rattle.netlist.specs.Gates.{nothing};

    // The netlist without lines.
    pub fn empty() -> Netlist
        ensures { circuit result ≡ nothing }
    {
        Netlist {
            size: Size::default(),
            rows: [GateRow::EMPTY; 768],
            ends: [0; 256],
        }
    }

    pub fn inputs(&self) -> usize
        ensures { result ≡ (circuit self.now).inputs }
    {
        self.size.inputs
    }

    pub fn gates(&self) -> usize
        ensures { result ≡ length (circuit self.now).gates }
    {
        self.size.gates
    }

    pub fn outputs(&self) -> usize
        ensures { result ≡ length (circuit self.now).outputs }
    {
        self.size.outputs
    }

    pub fn lines(&self) -> usize
        ensures { result ≡ (circuit self.now).inputs + length (circuit self.now).gates }
    {
        self.size.inputs + self.size.gates
    }

    // Whether a walk through gates leads from the line back to itself; an input has none.
    pub fn looped(&self, line: u32) -> bool
        ensures marked { result ≡ true → ∥ Looped (circuit self.now) line ∥₁ }
        ensures all_marked { Looped (circuit self.now) line → result ≡ true }
    {
        self.row(line).is_some_and(|row| row.looped)
    }

    // The row of a gate line.
    pub fn row(&self, line: u32) -> Option<GateRow>
        ensures of_the_line { Row (circuit self.now) line result }
        ensures has_its_progress { IfSome result (λ row. row.progress ≡ progress_of self.now line) }
    {
        row_of_line(self.gate_rows(), self.size.inputs, line).copied()
    }

    // Tells how far a gate's line has come: its row is lent and changed, and no other row. Nothing is told of other lines.
    pub fn advance(&mut self, line: u32, progress: Progress)
        ensures same_circuit { circuit self.new ≡ circuit self.old }
        ensures tells_a_gate { (circuit self.old).inputs < line → line ≤ (circuit self.old).inputs + length (circuit self.old).gates → progress_of self.new line ≡ progress }
        ensures tells_no_other { (n : ℕ) → (n ≢ line) → progress_of self.new n ≡ progress_of self.old n }
    {
        let Some(place) = (line as usize).checked_sub(self.size.inputs + 1) else {
            return;
        };
        if place < self.size.gates {
            self.rows[place].advance(progress);
        }
    }

    // Tells of every line that it has not come further than tick 0.
    pub fn rewind(&mut self)
        ensures same_circuit { circuit self.new ≡ circuit self.old }
        ensures tells_every_gate { (n : ℕ) → progress_of self.new n ≡ at_start }
    {
        for place in 0..self.size.gates {
            self.advance((self.size.inputs + 1 + place) as u32, Progress::default());
        }
    }

    // The rows of the gates, in line order.
    fn gate_rows(&self) -> &[GateRow]
        ensures { result.now ≡ take self.now.size.gates self.now.rows }
    {
        &self.rows[..self.size.gates]
    }

    // The line that an output names, counted from 0.
    pub fn output(&self, place: usize) -> Option<u32>
        ensures { Output (circuit self.now) place result }
    {
        self.ends[..self.size.outputs].get(place).copied()
    }

    // How many lines are looped.
    pub fn looped_lines(&self) -> usize
        ensures { LoopCount (circuit self.now) result }
    {
        self.gate_rows().iter().filter(|row| row.looped).count()
    }
}
