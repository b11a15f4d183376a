// What tells each action as it is taken.
use std::fmt::Display;
use std::io;

// It prints nothing where it is quiet.
#[derive(Drop)]
pub struct Narrator<'r, R> {
    pub rt: &'r R,
    pub quiet: bool,
}

impl<'r, R: Print + AllocGlobal> Narrator<'r, R> {
    pub fn new(rt: &'r R, quiet: bool) -> Narrator<'r, R> {
        Narrator { rt, quiet }
    }

    pub fn tell<D: Display + Drop>(&self, line: D) -> io::Result<()> {
        if self.quiet {
            return Ok(());
        }
        self.rt.println(line)
    }
}
