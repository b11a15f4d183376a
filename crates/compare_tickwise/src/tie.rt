// Relations between values and bits.
use crate::level::Level;
use crate::random::Random;
use std::fmt;

// How many lanes a word has.
const LANES: u8 = 64;

// A lane ties a word to the bit that it has there; what a value stands for is the bit that it is, or any for X.
#[derive(Clone, Copy, PartialEq, Eq, Debug)]
pub enum Tie {
    Lane(u8),
    StandsFor,
}

impl fmt::Display for Tie {
    fn fmt<W: fmt::Write>(&self, f: &mut fmt::Formatter<W>) -> fmt::Result {
        match self {
            Tie::Lane(lane) => write!(f, "lane {lane}"),
            Tie::StandsFor => f.write_str("what a value stands for"),
        }
    }
}

// The bit that a word has in a lane.
fn bit_of(word: u64, lane: u8) -> Level {
    if word.wrapping_shr(lane as u32) & 1 == 1 {
        Level::High
    } else {
        Level::Low
    }
}

// Any bit.
pub fn draw_bit(random: &mut Random) -> Level {
    random.pick(Level::Low, &[Level::High])
}

impl Tie {
    // Whether a value is tied to a bit.
    pub fn ties(self, value: Level, bit: Level) -> bool {
        match (self, value) {
            (Tie::Lane(lane), Level::Word(word)) => bit_of(word, lane) == bit,
            (Tie::StandsFor, Level::Unknown) => true,
            _ => value == bit,
        }
    }

    // A bit that is tied to a value.
    pub fn draw(self, random: &mut Random, value: Level) -> Level {
        match (self, value) {
            (Tie::Lane(lane), Level::Word(word)) => bit_of(word, lane),
            (_, Level::Unknown) => draw_bit(random),
            _ => value,
        }
    }

    // A lane at random.
    pub fn draw_lane(random: &mut Random) -> u8 {
        u8::try_from(random.below(LANES as u32)).unwrap_or(0)
    }

    // Another relation of the same values: the next lane, if it is one.
    pub fn next(self) -> Tie {
        match self {
            Tie::Lane(lane) => Tie::Lane(lane.saturating_add(1) % LANES),
            Tie::StandsFor => Tie::StandsFor,
        }
    }
}
