// A digest of changes, by which two programs are compared.
use events::record::EventRecord;
use values::bit::Bit;

const PRIME: u64 = 0x0000_0100_0000_01b3;

// How many changes there were, and a word that hangs on all of them and on their order.
#[derive(Clone, Copy)]
pub struct Digest {
    pub changes: u64,
    pub word: u64,
}

impl Digest {
    pub fn new() -> Digest {
        Digest {
            changes: 0,
            word: 0xcbf2_9ce4_8422_2325,
        }
    }

    fn put(&mut self, word: u64) {
        self.word = (self.word ^ word).wrapping_mul(PRIME);
    }

    // Adds a change of a line.
    pub fn add(&mut self, line: u32, change: EventRecord<Bit>) {
        self.put(line as u64);
        self.put(change.tick as u64);
        self.put(change.value.0 as u64);
        self.changes = self.changes.wrapping_add(1);
    }
}
