// Walks through the gates of a draft.
ghost use Rattle.std.specs.Prelude.{◌≡◌, true, false};
ghost use Rattle.netlist.specs.Drafts.{sheet};
ghost use Rattle.netlist.specs.Searches.{Sound, Grows, Followed};
ghost use Rattle.netlist.specs.Walks.{reads, Leads};

use super::Draft;
use super::search::{LineRange, Search};
use crate::row::row_of_line;

impl Draft {
    // The lines that drive a line through its gate.
    fn reads(&self, line: u32) -> &[u32]
        ensures { result.now ≡ reads (sheet self.now).circuit line }
    {
        match row_of_line(&self.rows[..self.drawn], self.size.inputs, line) {
            Some(row) => row.reads(),
            None => &[],
        }
    }

    // Marks the lines that a line reads; true where one of them is among the sources.
    fn visit(&self, search: &mut Search, line: u32, sources: LineRange) -> bool
        requires { Sound sources.first sources.last search.old }
        ensures leads { result ≡ true → Leads (sheet self.now).circuit sources.first sources.last line }
        ensures sound { result ≡ false → Sound sources.first sources.last search.new }
        ensures grows { result ≡ false → Grows (sheet self.now).circuit line search.old search.new }
        ensures followed { result ≡ false → Followed (sheet self.now).circuit search.new line }
    {
        for read in self.reads(line) {
            let read = *read;
            if sources.contains(read) {
                return true;
            }
            if !search.seen[read as usize] {
                search.mark(read);
            }
        }
        false
    }

    // Whether a walk leads to a line from one of the sources.
    pub(super) fn leads(&self, sources: LineRange, to: u32) -> bool
        ensures yes { result ≡ true → Leads (sheet self.now).circuit sources.first sources.last to }
        ensures no { result ≡ false → Leads (sheet self.now).circuit sources.first sources.last to → ⊥ }
    {
        let mut search = Search::new(to);
        while let Some(line) = search.take() {
            if self.visit(&mut search, line, sources) {
                return true;
            }
        }
        false
    }
}
