// How large a netlist is, how slow its gates are, and how fast its inputs are given.
use crate::random::Random;

#[derive(Clone, Copy, PartialEq, Eq, Debug)]
pub enum Pace {
    Short,
    Wide,
    Mixed,
    Long,
    Longest,
}

#[derive(Clone, Copy, Debug)]
pub struct Shape {
    pub inputs: usize,
    pub gates: usize,
    pub outputs: usize,
    pub pace: Pace,
}

pub const MOST_DELAY: u32 = 65_535;

impl Pace {
    // Once in some sixty times there are many lines.
    pub fn draw(random: &mut Random) -> Pace {
        if random.one_in(60) {
            return Pace::Wide;
        }
        match random.below(100) {
            0 => Pace::Longest,
            1..7 => Pace::Long,
            7..30 => Pace::Mixed,
            _ => Pace::Short,
        }
    }

    // The delay of a gate.
    pub fn delay(self, random: &mut Random) -> u32 {
        match self {
            Pace::Short | Pace::Wide => random.within(1, 4),
            Pace::Mixed if random.one_in(3) => random.within(5, 40),
            Pace::Mixed => random.within(1, 5),
            Pace::Long if random.one_in(2) => random.within(100, 700),
            Pace::Long => random.within(20, 60),
            Pace::Longest if random.one_in(3) => MOST_DELAY,
            Pace::Longest => random.within(5_000, MOST_DELAY),
        }
    }

    // How far the end of an input moves at most in one call.
    pub fn stride(self) -> u32 {
        match self {
            Pace::Short | Pace::Wide => 6,
            Pace::Mixed => 20,
            Pace::Long => 300,
            Pace::Longest => 40_000,
        }
    }

    // How many calls are made.
    pub fn calls(self, random: &mut Random) -> u32 {
        match self {
            Pace::Longest | Pace::Wide => random.within(8, 16),
            _ => random.within(15, 60),
        }
    }
}

// How many inputs or gates there are: mostly few.
fn few(random: &mut Random, few: u32, many: u32) -> u32 {
    if random.one_in(10) {
        random.within(1, many)
    } else {
        random.within(1, few)
    }
}

impl Shape {
    // A shape within the limits.
    pub fn draw(random: &mut Random) -> Shape {
        let pace = Pace::draw(random);
        let (inputs, gates) = match pace {
            Pace::Wide => (random.within(1, 256), random.within(60, 300)),
            Pace::Longest => (random.within(1, 2), random.within(1, 3)),
            Pace::Long => (random.within(1, 3), few(random, 6, 12)),
            Pace::Short | Pace::Mixed => (few(random, 3, 9), few(random, 9, 40)),
        };
        Shape {
            inputs: inputs as usize,
            gates: gates as usize,
            outputs: random.within(1, 4) as usize,
            pace,
        }
    }

    // Sometimes one of the numbers is outside its limits.
    pub fn spoil(&mut self, random: &mut Random) {
        match random.below(120) {
            0 => self.inputs = random.pick(0, &[257, 4_000_000_000]),
            1 => self.gates = random.pick(0, &[769, 4_000_000_000]),
            2 => self.outputs = random.pick(0, &[257, 4_000_000_000]),
            _ => (),
        }
    }

    pub fn lines(&self) -> u32 {
        u32::try_from(self.inputs.saturating_add(self.gates)).unwrap_or(u32::MAX)
    }
}
