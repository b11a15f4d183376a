// A row of the table of gates.
ghost use Rattle.std.specs.Prelude.{◌≡◌, ℕ, ◌+◌, ◌<◌, ◌≤◌, false, cond, ◌⊎◌, length, IfOk, MatchOption, slice_index_or};
ghost use Rattle.netlist.specs.GateRow.{empty, drawn};
ghost use Rattle.netlist.specs.Gates.{fits};
ghost use Rattle.netlist.specs.Refusals.{answer};

use crate::kind::Kind;
use crate::progress::Progress;
use crate::refusal::Refusal;
use std::fmt;
use std::marker::Model;

// A gate: its kind, its delay, and the lines it reads, of which the first `count` stand in `lines`, with 0 after them.
// `looped` is set at closing: a walk through gates leads from the gate's line back to itself. `progress` is moved by the
// session that the netlist is given to. An array and a count, since an empty row is repeated in the table, and a vector of
// bounded length cannot be copied.
#[derive(Clone, Copy, Debug)]
pub struct GateRow {
    pub kind: Kind,
    pub delay: u32,
    lines: [u32; 4],
    count: usize,
    pub looped: bool,
    pub progress: Progress,
}

impl Model for GateRow {
    ghost use Rattle.std.specs.Prelude.{length, take, refl};
    ghost use Rattle.netlist.specs.GateRow.{MarkedGate, IsPadded, padded, padded_again, counted};

    ghost Value = { MarkedGate };

    ghost view = { λ r. record { gate = record { kind = r.kind; delay = r.delay; reads = take r.count r.lines }; looped = r.looped; progress = r.progress } };

    ghost invariant = { λ r. IsPadded r.lines r.count };

    ghost inverse = { λ v. record { kind = v.gate.kind; delay = v.gate.delay; lines = padded v.gate.reads; count = length v.gate.reads; looped = v.looped; progress = v.progress } };

    ghost inverse_ok = { λ r tidy. rw (padded_again r.lines r.count tidy, counted r.lines r.count tidy) refl };
}

impl GateRow {
    pub const EMPTY: GateRow = GateRow {
        kind: Kind::Buf,
        delay: 0,
        lines: [0; 4],
        count: 0,
        looped: false,
        progress: Progress { tick: 0, kept: 0 },
    };

    // The row of a gate, not marked as looped; refused where its kind does not take so many lines.
    pub fn new(kind: Kind, delay: u32, lines: &[u32]) -> Result<GateRow, Refusal>
        ensures answers { answer result ≡ cond (fits kind (length lines.now)) 0 7 }
        ensures row { IfOk result (λ row. row ≡ drawn (record { kind = kind; delay = delay; reads = lines.now })) }
    {
        let count = lines.len();
        if !kind.takes(count) {
            return Err(Refusal::Kind);
        }
        let mut reads = [0; 4];
        reads[..count].copy_from_slice(lines);
        Ok(GateRow {
            kind,
            delay,
            lines: reads,
            count,
            looped: false,
            progress: Progress::default(),
        })
    }

    // Marks the gate's line as looped, or as not. A call, since a row in a table is changed whole.
    pub(crate) fn mark(&mut self, looped: bool)
        ensures { self.new ≡ record { gate = self.old.gate; looped = looped; progress = self.old.progress } }
    {
        self.looped = looped;
    }

    // Tells how far the gate's line has come.
    pub(crate) fn advance(&mut self, progress: Progress)
        ensures { self.new ≡ record { gate = self.old.gate; looped = self.old.looped; progress = progress } }
    {
        self.progress = progress;
    }

    // The lines that the gate reads, from first to last.
    pub fn reads(&self) -> &[u32]
        ensures { result.now ≡ self.now.gate.reads }
    {
        &self.lines[..self.count]
    }
}

// Written out, since its text is promised.
impl fmt::Display for GateRow {
    ghost use Rattle.std.specs.Prelude.{Some};
    ghost use Rattle.netlist.specs.GateRow.{gate_text};

    ghost output = { λ row. Some (gate_text row.gate) };

    fn fmt<W: fmt::Write>(&self, f: &mut fmt::Formatter<W>) -> fmt::Result {
        let GateRow { kind, delay, .. } = self;
        write!(f, "{kind}, delay {delay}, reads")?;
        for line in self.reads() {
            write!(f, " {line}")?;
        }
        Ok(())
    }
}

// The row of the gate that drives a line, of the rows of the gates that come after so many inputs. Two comparisons, since
// runs ask for many rows: two `checked_sub`s and a `get` take twice as many instructions.
pub(crate) fn row_of_line(rows: &[GateRow], inputs: usize, line: u32) -> Option<&GateRow>
    ensures { MatchOption result ((line ≤ inputs) ⊎ (inputs + length rows.now < line)) (λ row. (k : ℕ) × (k < length rows.now) × (line ≡ inputs + 1 + k) × (row.now ≡ slice_index_or rows.now k empty)) }
{
    let line = line as usize;
    if line <= inputs || rows.len() < line - inputs {
        return None;
    }
    Some(&rows[line - inputs - 1])
}

#[cfg(test)]
mod tests {
    use super::*;

    #[test]
    fn keeps_its_lines_first_and_zeros_after(rt: HostRuntime) -> Result<(), Refusal> {
        let table: [(Kind, &[u32], [u32; 4], usize); 8] = [
            (Kind::Nor, &[2, 3, 1], [2, 3, 1, 0], 3),
            (Kind::Buf, &[1], [1, 0, 0, 0], 1),
            (Kind::Buf, &[256], [256, 0, 0, 0], 1),
            (Kind::And, &[7, 8], [7, 8, 0, 0], 2),
            (Kind::Nand, &[768, 1, 257, 1], [768, 1, 257, 1], 4),
            (Kind::Nand, &[767, 256, 512, 1], [767, 256, 512, 1], 4),
            (Kind::Xnor, &[513, 257, 1, 1], [513, 257, 1, 1], 4),
            (Kind::Xnor, &[768, 512, 256, 1024], [768, 512, 256, 1024], 4),
        ];
        for (kind, reads, lines, count) in table {
            let GateRow {
                lines: kept,
                count: taken,
                ..
            } = GateRow::new(kind, 65_535, reads)?;
            assert_eq!(rt; (kept, taken), (lines, count));
        }
        Ok(())
    }
}
