// Values as both simulators have them, each in its own types.
use crate::random::Random;
use std::alloc::{AllocError, Global};
use std::fmt;
use tickwise::three::Three;
use tickwise::two::Two;
use tickwise::word::Word;
use values::bit::Bit;
use values::lanes::Lanes;
use values::ternary::Ternary;

#[derive(Clone, Copy, PartialEq, Eq, Debug)]
pub enum Level {
    Low,
    High,
    Unknown,
    Word(u64),
}

impl fmt::Display for Level {
    fn fmt<W: fmt::Write>(&self, f: &mut fmt::Formatter<W>) -> fmt::Result {
        match self {
            Level::Low => f.write_str("0"),
            Level::High => f.write_str("1"),
            Level::Unknown => f.write_str("X"),
            Level::Word(word) => write!(f, "{word:016x}"),
        }
    }
}

// A value that can be told as a level, and made of one.
pub trait Spelled: Copy {
    fn of(level: Level) -> Self;

    fn level(self) -> Level;
}

// The values that levels spell.
pub fn values_of<V: Spelled>(alloc: Global, levels: &[Level]) -> Result<Vec<V>, AllocError> {
    let mut values = Vec::new(alloc);
    for level in levels {
        values.push(V::of(*level))?;
    }
    Ok(values)
}

impl Spelled for Bit {
    fn of(level: Level) -> Bit {
        Bit(level == Level::High)
    }

    fn level(self) -> Level {
        if self.0 { Level::High } else { Level::Low }
    }
}

impl Spelled for Two {
    fn of(level: Level) -> Two {
        Two(level == Level::High)
    }

    fn level(self) -> Level {
        if self.0 { Level::High } else { Level::Low }
    }
}

impl Spelled for Ternary {
    fn of(level: Level) -> Ternary {
        match level {
            Level::Low => Ternary::Zero,
            Level::High => Ternary::One,
            Level::Unknown | Level::Word(_) => Ternary::X,
        }
    }

    fn level(self) -> Level {
        match self {
            Ternary::Zero => Level::Low,
            Ternary::One => Level::High,
            Ternary::X => Level::Unknown,
        }
    }
}

impl Spelled for Three {
    fn of(level: Level) -> Three {
        match level {
            Level::Low => Three::ZERO,
            Level::High => Three::ONE,
            Level::Unknown | Level::Word(_) => Three::UNKNOWN,
        }
    }

    fn level(self) -> Level {
        match (self.can_be_zero, self.can_be_one) {
            (true, false) => Level::Low,
            (false, true) => Level::High,
            _ => Level::Unknown,
        }
    }
}

impl Spelled for Lanes {
    fn of(level: Level) -> Lanes {
        match level {
            Level::Word(word) => Lanes(word),
            _ => Lanes(0),
        }
    }

    fn level(self) -> Level {
        Level::Word(self.0)
    }
}

impl Spelled for Word {
    fn of(level: Level) -> Word {
        match level {
            Level::Word(word) => Word(word),
            _ => Word(0),
        }
    }

    fn level(self) -> Level {
        Level::Word(self.0)
    }
}

// The value systems.
#[derive(Clone, Copy, PartialEq, Eq, Debug)]
pub enum System {
    Two,
    Three,
    Lanes,
}

// Words that come often, so that inputs are fed what they have already.
const WORDS: [u64; 3] = [0, u64::MAX, 0x0f0f_0f0f_0f0f_0f0f];

impl System {
    pub const ALL: [System; 3] = [System::Two, System::Three, System::Lanes];

    pub fn name(self) -> &'static str {
        match self {
            System::Two => "two values",
            System::Three => "three values",
            System::Lanes => "lanes",
        }
    }

    // A value at random.
    pub fn draw(self, random: &mut Random) -> Level {
        match self {
            System::Two => random.pick(Level::Low, &[Level::High]),
            System::Three => random.pick(Level::Low, &[Level::High, Level::Unknown]),
            System::Lanes if random.one_in(2) => Level::Word(random.pick(1, &WORDS)),
            System::Lanes => Level::Word(random.next()),
        }
    }
}
