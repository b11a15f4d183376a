// Which gates read a line.
ghost use Rattle.std.specs.Prelude.{◌≡◌, slice_index};
ghost use Rattle.netlist.specs.Closed.{circuit};
ghost use Rattle.netlist.specs.Walks.{reads};
ghost use Rattle.engine.specs.Readers.{ReadAt, AllRead};

use netlist::closed::Netlist;
use occurrences::{Occurrences, PLACES};

// For each place of the lines that a gate reads, from first to fourth: which line stands there, gate by gate. The gates that
// read a line are where it occurs.
pub(crate) type Readers = [Occurrences; 4];

// The line that a gate's line reads at a place; 0 where it reads none there.
fn read_at(netlist: &Netlist, line: u32, place: usize) -> u32
    ensures { result ≡ slice_index (reads (circuit netlist.now) line) place }
{
    match netlist.row(line) {
        Some(row) => row.reads().get(place).copied().unwrap_or(0),
        None => 0,
    }
}

// The lines that all gates read at a place.
fn reads_at(netlist: &Netlist, place: usize) -> Occurrences
    ensures { ReadAt (circuit netlist.now) place result }
{
    let mut reads = [0; PLACES];
    for line in 0..netlist.lines() {
        reads[line] = read_at(netlist, line as u32 + 1, place);
    }
    Occurrences::new(reads)
}

// The readers of all lines.
pub(crate) fn readers_of(netlist: &Netlist) -> Readers
    ensures { AllRead (circuit netlist.now) result }
{
    [
        reads_at(netlist, 0),
        reads_at(netlist, 1),
        reads_at(netlist, 2),
        reads_at(netlist, 3),
    ]
}
