// A reader of value change dumps, which knows nothing of how they are written.
use std::alloc::{AllocError, Global};
use std::fmt::Write;
use std::num::ParseIntError;
use std::test::Fail;

// A change: its tick, and the text of the value.
#[derive(Debug, Drop)]
pub struct Change {
    pub tick: u32,
    pub value: String,
}

// A variable: how many bits it has, its code and its name; its value at first, and its changes.
#[derive(Debug, Drop)]
pub struct Variable {
    width: usize,
    pub code: String,
    pub name: String,
    pub first: Option<String>,
    pub changes: Vec<Change>,
}

impl Variable {
    // The changes below a tick, and the others.
    pub fn around(&self, tick: u32) -> (&[Change], &[Change]) {
        let before = self
            .changes
            .iter()
            .take_while(|change| change.tick < tick)
            .count();
        (
            self.changes.get(..before).unwrap_or(&[]),
            self.changes.get(before..).unwrap_or(&[]),
        )
    }
}

// What a comment tells of the variable of that name.
#[derive(Debug, Drop)]
struct Settled {
    name: String,
    tick: u32,
}

// Which part of a dump is read: the declarations, the values at first, or the changes.
#[derive(Clone, Copy, PartialEq, Eq, Debug)]
enum Part {
    Head,
    First,
    Changes,
}

// What was read so far: the scopes that are open, the part, and the time, if it was told.
#[derive(Debug, Drop)]
pub struct Dump {
    alloc: Global,
    pub variables: Vec<Variable>,
    settled: Vec<Settled>,
    scopes: u32,
    part: Part,
    now: Option<u32>,
}

// A value that a line gives: its text, whether it is a word of bits, and the code of the variable.
#[derive(Clone, Copy)]
struct Given<'t> {
    value: &'t str,
    word: bool,
    code: &'t str,
}

impl<'t> Given<'t> {
    fn word(line: &'t str) -> Option<Given<'t>> {
        let (value, code) = line.strip_prefix('b')?.split_once(' ')?;
        let word = true;
        Some(Given { value, word, code })
    }

    fn bit(line: &'t str) -> Option<Given<'t>> {
        let (value, code) = line.split_at_checked(1)?;
        let word = false;
        Some(Given { value, word, code })
    }

    fn read(line: &'t str) -> Option<Given<'t>> {
        Given::word(line).or(Given::bit(line))
    }

    // Whether it is a value of so many bits: a bit on its own, or at most so many in a word; or x.
    fn fits(self, width: usize) -> bool {
        let known = self
            .value
            .bytes()
            .all(|digit| digit == b'0' || digit == b'1');
        let length = self.value.len();
        self.word == (width > 1) && (1..=width).contains(&length) && (known || self.value == "x")
    }
}

// Why a text is no dump.
#[derive(Debug, Drop)]
pub struct Flaw(&'static str);

impl From<&'static str> for Flaw {
    fn from(why: &'static str) -> Flaw {
        Flaw(why)
    }
}

impl From<ParseIntError> for Flaw {
    fn from(_error: ParseIntError) -> Flaw {
        Flaw("no number")
    }
}

impl From<AllocError> for Flaw {
    fn from(_error: AllocError) -> Flaw {
        Flaw("out of memory")
    }
}

fn push<T: Drop>(list: &mut Vec<T>, x: T) -> Result<(), AllocError> {
    list.push(x)?;
    Ok(())
}

fn must(holds: bool, why: &'static str) -> Result<(), Flaw> {
    if holds { Ok(()) } else { Err(Flaw(why)) }
}

impl Dump {
    fn new(alloc: Global) -> Dump {
        Dump {
            alloc,
            variables: Vec::new(alloc),
            settled: Vec::new(alloc),
            scopes: 0,
            part: Part::Head,
            now: None,
        }
    }

    fn declare(&mut self, width: &str, code: &str, name: &str) -> Result<(), Flaw> {
        let width: usize = width.parse()?;
        must(
            self.scopes > 0 && width > 0,
            "a variable in no scope, or of no width",
        )?;
        let variable = Variable {
            width,
            code: String::from_str(self.alloc, code)?,
            name: String::from_str(self.alloc, name)?,
            first: None,
            changes: Vec::new(self.alloc),
        };
        push(&mut self.variables, variable)?;
        Ok(())
    }

    fn settle(&mut self, name: &str, tick: &str) -> Result<(), Flaw> {
        let name = String::from_str(self.alloc, name)?;
        let tick = tick.parse()?;
        push(&mut self.settled, Settled { name, tick })?;
        Ok(())
    }

    // All variables of the code, of which there is one, have the value from now on.
    fn assign(&mut self, given: Given) -> Result<(), Flaw> {
        let tick = self.now.ok_or("a value at no time")?;
        let mut found = false;
        for variable in self.variables.iter_mut() {
            if variable.code.as_str() != given.code {
                continue;
            }
            must(
                given.fits(variable.width),
                "a value that the variable has not",
            )?;
            found = true;
            let value = String::from_str(self.alloc, given.value)?;
            if self.part == Part::First {
                variable.first = Some(value);
            } else {
                push(&mut variable.changes, Change { tick, value })?;
            }
        }
        must(found, "a value of no variable")
    }

    // Times come after the head, and increase.
    fn pass(&mut self, tick: &str) -> Result<(), Flaw> {
        let tick = tick.parse()?;
        let later = self.now.is_none_or(|now| now < tick);
        must(later && self.part == Part::Changes, "a time out of order")?;
        self.now = Some(tick);
        Ok(())
    }

    fn enter(&mut self) -> Result<(), Flaw> {
        self.scopes = self.scopes.checked_add(1).ok_or("too many scopes")?;
        Ok(())
    }

    fn leave(&mut self) -> Result<(), Flaw> {
        self.scopes = self.scopes.checked_sub(1).ok_or("no scope is open")?;
        Ok(())
    }

    // Goes from one part to another.
    fn go(&mut self, from: Part, to: Part) -> Result<(), Flaw> {
        must(self.part == from && self.scopes == 0, "a part out of order")?;
        self.part = to;
        Ok(())
    }

    // Reads a line of the head.
    fn head(&mut self, line: &str) -> Result<(), Flaw> {
        let words: Vec<&str> = line.split_whitespace().collect(self.alloc)?;
        match words.as_slice() {
            ["$version", "Rutskeva", "$end"] | ["$timescale", "1", "ns", "$end"] => Ok(()),
            ["$scope", "module", _, "$end"] => self.enter(),
            ["$upscope", "$end"] => self.leave(),
            ["$var", "wire", width, code, name, "$end"] => self.declare(width, code, name),
            ["$comment", name, "is", "settled", "up", "to", tick, "$end"] => {
                self.settle(name, tick)
            }
            ["$comment", .., "$end"] => Ok(()),
            ["$enddefinitions", "$end"] => self.go(Part::Head, Part::Changes),
            _ => Err(Flaw("an unknown line in the head")),
        }
    }

    // Reads a line after the head.
    fn body(&mut self, line: &str) -> Result<(), Flaw> {
        if let Some(tick) = line.strip_prefix('#') {
            return self.pass(tick);
        }
        match line {
            "$dumpvars" => self.go(Part::Changes, Part::First),
            "$end" => self.go(Part::First, Part::Changes),
            line => self.assign(Given::read(line).ok_or("an unknown line")?),
        }
    }

    pub fn read(alloc: Global, text: &str) -> Result<Dump, Flaw> {
        let mut dump = Dump::new(alloc);
        for line in text.lines() {
            if dump.part == Part::Head {
                dump.head(line)?;
            } else {
                dump.body(line)?;
            }
        }
        must(
            dump.part == Part::Changes,
            "no end of the head, or of the values at first",
        )?;
        Ok(dump)
    }

    // The last time.
    pub fn end(&self) -> u32 {
        self.now.unwrap_or(0)
    }

    // How far the variables of a code are settled, by their names.
    pub fn settled(&self, code: &str) -> Option<u32> {
        for variable in self.variables.iter() {
            if variable.code.as_str() != code {
                continue;
            }
            for settled in self.settled.iter() {
                if settled.name == variable.name {
                    return Some(settled.tick);
                }
            }
        }
        None
    }

    // The listing of the outputs: of the variables named `out`, a number, and the name of a gate's line.
    pub fn listing(&self) -> Result<String, Fail> {
        let mut text = String::new(self.alloc);
        for variable in self.variables.iter() {
            if !variable.name.starts_with("out") {
                continue;
            }
            let line = line_of(&variable.name).ok_or("no line")?;
            let settled = self.settled(&variable.code).ok_or("not told")?;
            let (known, _) = variable.around(settled);
            writeln!(text, "L{line:>4}{settled:>10}{:>4}", known.len())?;
            list_changes(self.alloc, &mut text, known)?;
        }
        Ok(text)
    }
}

// The rows of changes.
fn list_changes(alloc: Global, text: &mut String, changes: &[Change]) -> Result<(), Fail> {
    for Change { tick, value } in changes.iter() {
        writeln!(text, "C{tick:>10} {}", value.to_ascii_uppercase(alloc)?)?;
    }
    Ok(())
}

// The line in a name such as `out1_n4_nand`.
fn line_of(name: &str) -> Option<&str> {
    let (_, name) = name.split_once("_n")?;
    let (line, _) = name.split_once('_')?;
    Some(line)
}
