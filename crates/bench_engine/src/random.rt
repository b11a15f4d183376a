// Bits at random, always the same.

// A generator that shifts a word and combines it with itself.
#[derive(Clone, Copy)]
pub struct Random {
    word: u64,
}

impl Random {
    pub fn new() -> Random {
        Random {
            word: 0x9e37_79b9_7f4a_7c15,
        }
    }

    pub fn next(&mut self) -> u64 {
        self.word ^= self.word << 13;
        self.word ^= self.word >> 7;
        self.word ^= self.word << 17;
        self.word
    }
}
