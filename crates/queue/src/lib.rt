// Keys in numbered places, and which of them is least, kept up as they change.
#![tactic(auto)]

ghost use Rattle.std.specs.Prelude.{◌≡◌, ◌<◌, slice_set, IfSome};
ghost use Rattle.queue.specs.Blocks.{IsLowest, PlaceOf, block as keys_in};
ghost use Rattle.queue.specs.Keys.{First};

use std::marker::Model;

// A key of this size is none.
pub const NO_KEY: u32 = u32::MAX;

// How many places there are.
pub const PLACES: usize = 1024;

// How many of them are in a block.
const BLOCK: usize = 32;

const BLOCKS: usize = PLACES / BLOCK;

// The keys, cut into blocks, and of each block the lowest key. So a change, and the search for the lowest of all, looks at
// some dozens of keys, however many there are.
#[derive(Drop)]
pub struct Queue {
    keys: [u32; PLACES],
    lowest: [u32; BLOCKS],
}

impl Model for Queue {
    ghost use Rattle.std.specs.Prelude.{◌≡◌, ℕ, List, length};
    ghost use Rattle.queue.specs.Blocks.{LowestOfBlocks};

    ghost Value = { List ℕ };

    ghost view = { λ q. q.keys };

    ghost invariant = { λ q. (length q.keys ≡ 1024) × (length q.lowest ≡ 32) × LowestOfBlocks q.keys q.lowest };
}

// The lowest of some keys.
fn lowest(keys: &[u32]) -> u32
    ensures { IsLowest keys.now result }
{
    let mut lowest = NO_KEY;
    for key in keys {
        lowest = lowest.min(*key);
    }
    lowest
}

// The keys of a block.
fn keys_of(keys: &[u32; PLACES], block: usize) -> &[u32]
    requires { block < 32 }
    ensures { result.now ≡ keys_in keys.now block }
{
    &keys[BLOCK * block..BLOCK * block + BLOCK]
}

// The first place at which a key stands.
fn place_of(keys: &[u32], key: u32) -> Option<usize>
    ensures { PlaceOf keys.now key result }
{
    keys.iter().position(|other| *other == key)
}

impl Queue {
    // A queue with these keys.
    pub fn new(keys: [u32; PLACES]) -> Queue
        ensures { result ≡ keys }
    {
        let mut lowest_keys = [NO_KEY; BLOCKS];
        for block in 0..BLOCKS {
            lowest_keys[block] = lowest(keys_of(&keys, block));
        }
        Queue {
            keys,
            lowest: lowest_keys,
        }
    }

    // Sets the key in a place. There are 1,024 places, counted from 0; another alters nothing.
    pub fn set(&mut self, place: usize, key: u32)
        ensures { self.new ≡ slice_set self.old place key }
    {
        if self.keys.get(place).is_none() {
            return;
        }
        self.keys[place] = key;
        let block = place / BLOCK;
        self.lowest[block] = lowest(keys_of(&self.keys, block));
    }

    // The place of the lowest key, the first where there are several; none where there is no key.
    pub fn first(&self) -> Option<usize>
        ensures answers { First self.now result }
        ensures within { IfSome result (λ place. place < 1024) }
    {
        let least = lowest(&self.lowest);
        if least == NO_KEY {
            return None;
        }
        let block = place_of(&self.lowest, least)?;
        let place = place_of(keys_of(&self.keys, block), least)?;
        Some(BLOCK * block + place)
    }
}
