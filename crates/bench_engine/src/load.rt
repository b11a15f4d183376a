// The load: what inputs are fed in stretches, and what is counted meanwhile.
use crate::digest::Digest;
use crate::random::Random;
use crate::stop::Stop;
use engine::session::Session;
use netlist::refusal::Refusal;
use values::bit::Bit;

// How many steps make a stretch.
const STEPS: u32 = 6;

// How many ticks there are from a step to the next.
const PERIOD: u32 = 200;

// A session under load: the tick of the next step, and what was counted so far. A change is counted when it is dropped.
#[derive(Drop)]
pub struct Load<'a> {
    session: Session<'a, Bit>,
    random: Random,
    tick: u32,
    steps: u32,
    takes: u64,
    digest: Digest,
}

impl<'a> Load<'a> {
    pub fn new(session: Session<'a, Bit>) -> Load<'a> {
        Load {
            session,
            random: Random::new(),
            tick: 0,
            steps: 0,
            takes: 0,
            digest: Digest::new(),
        }
    }

    // Feeds a bit to each of some inputs; for each a word at random tells whether, and which bit.
    fn step(&mut self) -> Result<(), Refusal> {
        for place in 0..self.session.netlist().inputs() {
            let word = self.random.next();
            if word >> 32 & 1 == 1 {
                let bit = Bit(word >> 33 & 1 == 1);
                self.session.feed(place as u32 + 1, self.tick, bit)?;
            }
        }
        Ok(())
    }

    // Makes the steps of a stretch.
    fn steps(&mut self) -> Result<(), Refusal> {
        for _step in 0..STEPS {
            self.step()?;
            self.steps = self.steps.saturating_add(1);
            self.tick = self.tick.saturating_add(PERIOD);
        }
        Ok(())
    }

    // Holds all inputs up to the next step.
    fn hold(&mut self) -> Result<(), Refusal> {
        for place in 0..self.session.netlist().inputs() {
            self.session.hold(place as u32 + 1, self.tick)?;
        }
        Ok(())
    }

    // Counts the changes of a line that will be dropped.
    fn count_line(&mut self, line: u32) -> Result<(), Refusal> {
        for k in 0..self.session.state(line)?.kept {
            let change = self.session.event(line, k)?;
            if change.tick >= self.tick {
                break;
            }
            self.digest.add(line, change);
        }
        Ok(())
    }

    // Trims below the next step, and counts what is dropped.
    fn trim(&mut self) -> Result<(), Refusal> {
        for place in 0..self.session.netlist().lines() {
            self.count_line(place as u32 + 1)?;
        }
        self.session.trim(self.tick)
    }

    // A stretch: gives the inputs, runs to rest, and trims.
    fn stretch(&mut self) -> Result<(), Refusal> {
        self.steps()?;
        self.hold()?;
        let takes = self.session.run_to_rest();
        self.takes = self.takes.saturating_add(takes);
        self.trim()
    }

    // So many stretches.
    pub fn stretches(&mut self, stretches: u32) -> Result<(), Refusal> {
        for _stretch in 0..stretches {
            self.stretch()?;
        }
        Ok(())
    }

    // Tells what was counted, and the digest.
    pub fn report(&self, rt: &impl Print) -> Result<(), Stop> {
        let Load { steps, takes, .. } = self;
        let Digest { changes, word } = self.digest;
        println!(rt; "{takes} takes")?;
        println!(rt; "{steps} steps, {changes} changes")?;
        println!(rt; "digest {word:016x}")?;
        Ok(())
    }
}
