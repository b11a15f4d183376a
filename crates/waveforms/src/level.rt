// Values as they are shown.
use std::fmt::Display;
use values::bit::Bit;
use values::lanes::Lanes;
use values::system::ValueSystem;
use values::ternary::Ternary;

// What is shown of a value: a bit, a bit that is not known, or a word of 64 bits.
#[derive(Clone, Copy, PartialEq, Eq, Debug)]
pub enum Level {
    Low,
    High,
    Unknown,
    Word(u64),
}

impl Level {
    fn of_bit(bit: bool) -> Level {
        if bit { Level::High } else { Level::Low }
    }
}

// A value system whose values can be shown.
pub trait Shown: ValueSystem + Display {
    // How many bits a value has.
    const WIDTH: u32;

    // The value that a stimulus names, if the system has it.
    fn named(name: Ternary) -> Option<Self>;

    fn level(self) -> Level;
}

impl Shown for Ternary {
    const WIDTH: u32 = 1;

    fn named(name: Ternary) -> Option<Self> {
        Some(name)
    }

    fn level(self) -> Level {
        match self {
            Ternary::Zero => Level::Low,
            Ternary::One => Level::High,
            Ternary::X => Level::Unknown,
        }
    }
}

impl Shown for Bit {
    const WIDTH: u32 = 1;

    fn named(name: Ternary) -> Option<Self> {
        match name {
            Ternary::Zero => Some(Bit(false)),
            Ternary::One => Some(Bit(true)),
            Ternary::X => None,
        }
    }

    fn level(self) -> Level {
        Level::of_bit(self.0)
    }
}

// A name means its bit in all lanes.
impl Shown for Lanes {
    const WIDTH: u32 = 64;

    fn named(name: Ternary) -> Option<Self> {
        match name {
            Ternary::Zero => Some(Lanes(0)),
            Ternary::One => Some(Lanes(u64::MAX)),
            Ternary::X => None,
        }
    }

    fn level(self) -> Level {
        Level::Word(self.0)
    }
}
