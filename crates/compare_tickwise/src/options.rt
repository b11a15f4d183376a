// The arguments of the program.
use crate::stop::Stop;
use std::env;
use std::rt::Runtime;

const SEED: u64 = 1;

const NETLISTS: u64 = 2_000;

// The seed of the first netlist, and how many netlists there are; the next one has the next seed.
#[derive(Clone, Copy, Debug)]
pub struct Options {
    pub seed: u64,
    pub netlists: u64,
}

// The number that a word spells; another where there is no word.
fn read_number(word: Option<String>, other: u64) -> Result<u64, Stop> {
    let Some(word) = word else {
        return Ok(other);
    };
    match word.parse::<u64>() {
        Ok(number) => Ok(number),
        Err(_) => Err(Stop::Misuse(word)),
    }
}

pub fn read<R: Runtime + AllocGlobal>(rt: &R) -> Result<Options, Stop> {
    let mut words = env::args(rt)?.skip(1);
    let options = Options {
        seed: read_number(words.next(), SEED)?,
        netlists: read_number(words.next(), NETLISTS)?,
    };
    match words.next() {
        None => Ok(options),
        Some(word) => Err(Stop::OneMore(word)),
    }
}
