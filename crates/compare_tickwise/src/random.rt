// Numbers at random, always the same from one seed.

// A generator that counts in great steps and mixes what it counts.
#[derive(Clone, Copy)]
pub struct Random {
    word: u64,
}

impl Random {
    pub fn new(seed: u64) -> Random {
        Random { word: seed }
    }

    pub fn next(&mut self) -> u64 {
        self.word = self.word.wrapping_add(0x9e37_79b9_7f4a_7c15);
        let mut mixed = self.word;
        mixed = (mixed ^ mixed >> 30).wrapping_mul(0xbf58_476d_1ce4_e5b9);
        mixed = (mixed ^ mixed >> 27).wrapping_mul(0x94d0_49bb_1331_11eb);
        mixed ^ mixed >> 31
    }

    // A number below another; 0 where there is none.
    pub fn below(&mut self, count: u32) -> u32 {
        let word = self.next();
        match word.checked_rem(count as u64) {
            None => 0,
            Some(number) => u32::try_from(number).unwrap_or(0),
        }
    }

    // A number from the least to the most.
    pub fn within(&mut self, least: u32, most: u32) -> u32 {
        let count = most.saturating_sub(least).saturating_add(1);
        least.saturating_add(self.below(count))
    }

    // True once in so many times.
    pub fn one_in(&mut self, count: u32) -> bool {
        self.below(count) == 0
    }

    // One of some items, which are not none.
    pub fn pick<T: Copy>(&mut self, first: T, others: &[T]) -> T {
        let count = u32::try_from(others.len()).unwrap_or(0).saturating_add(1);
        let place = self.below(count) as usize;
        others.get(place).copied().unwrap_or(first)
    }
}
