// A search against the direction of walks: from a line to those it reads, and on to those that they read.
ghost use Rattle.std.specs.Prelude.{◌≡◌, ◌<◌, [], ◌∷◌, length, replicate, false, MatchOption};
ghost use Rattle.std.specs.Int.{is_in_range};
ghost use Rattle.netlist.specs.Searches.{waiting, marked, Takes};

use arrayvec::ArrayVec;

// The lines from the first to the last; a `RangeInclusive` that was run through would contain none.
#[derive(Clone, Copy)]
pub(super) struct LineRange {
    pub(super) first: usize,
    pub(super) last: usize,
}

impl LineRange {
    pub(super) fn contains(self, line: u32) -> bool
        ensures { result ≡ is_in_range self.first self.last line }
    {
        (self.first..=self.last).contains(&(line as usize))
    }
}

// The lines found so far, in the order in which they were found; those from place `next` on are still to be followed. A line
// is marked as seen when some line reads it, and is found then, so each is followed once; but the start, which is found at
// the beginning, is followed a second time where a walk leads back to it. The line found first is followed first, so a near
// source is met before a far one.
#[derive(Drop)]
pub(super) struct Search {
    pub(super) seen: [bool; 1025],
    pub(super) found: ArrayVec<u32, 1026>,
    pub(super) next: usize,
}

impl Search {
    pub(super) fn new(start: u32) -> Search
        ensures nothing_seen { result.seen ≡ replicate 1025 false }
        ensures start_waits { waiting result ≡ start ∷ [] }
        ensures start_found { length result.found.items ≡ 1 }
    {
        let mut found = ArrayVec::new();
        found.push(start);
        Search {
            seen: [false; 1025],
            found,
            next: 0,
        }
    }

    // Marks a line that is read, and keeps it to be followed.
    pub(super) fn mark(&mut self, line: u32)
        requires on_table { line < 1025 }
        requires room { length self.old.found.items < 1026 }
        ensures { self.new ≡ marked self.old line }
    {
        self.seen[line as usize] = true;
        self.found.push(line);
    }

    // Takes the line that has waited longest.
    pub(super) fn take(&mut self) -> Option<u32>
        ensures { MatchOption result (waiting self.old ≡ []) (λ line. Takes self.old line self.new) }
    {
        let line = self.found.get(self.next).copied()?;
        self.next += 1;
        Some(line)
    }
}
