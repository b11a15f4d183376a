// The options that the program is called with.
use crate::stop::Stop;
use listing::lister::RECORDS;
use std::alloc::AllocError;
use std::rt::Runtime;
use std::{env, fmt, io};
use thiserror::Error;

pub const HELP: &str = "\
simulate [OPTIONS] [FILE]

Simulates the deck and the stimulus in FILE, or on standard input where there is none or it is -: at most 32,768 bytes.
Tells each action, lists the changes of the outputs, draws the inputs and the outputs, and does the job again, cut and
ordered otherwise, to compare.

  --quiet          prints the listing only; at a fault only its row
  --store N        keeps N records for the lines, 2 to 1,048,576 (4,096 where it is not told)
  --system NAME    two, three or lanes: the values on lines (three where it is not told)
  --vcd PATH       writes the changes of all lines to PATH, as a value change dump
  --help           prints this

The status is 0, or 1 where the deck or the stimulus has a fault, where the job cannot be done, and where what must agree
does not.
";

const MOST_RECORDS: usize = 1_048_576;

// The word that stands for standard input where a file is named.
pub const STANDARD: &str = "-";

#[derive(Clone, Copy, PartialEq, Eq, Debug)]
pub enum System {
    Two,
    Three,
    Lanes,
}

impl fmt::Display for System {
    fn fmt<W: fmt::Write>(&self, f: &mut fmt::Formatter<W>) -> fmt::Result {
        f.write_str(match self {
            System::Two => "two",
            System::Three => "three",
            System::Lanes => "lanes",
        })
    }
}

// Options that are followed by a value.
#[derive(Clone, Copy, PartialEq, Eq, Debug)]
pub enum Flag {
    Store,
    System,
    Vcd,
}

impl fmt::Display for Flag {
    fn fmt<W: fmt::Write>(&self, f: &mut fmt::Formatter<W>) -> fmt::Result {
        f.write_str(match self {
            Flag::Store => "--store",
            Flag::System => "--system",
            Flag::Vcd => "--vcd",
        })
    }
}

// What is wrong with the options.
#[derive(Debug, Drop, Error)]
pub enum Misuse {
    #[error("{0} is no option; --help tells them")]
    Unknown(String),
    #[error("{0} needs a value after it")]
    Unfinished(Flag),
    #[error("--store takes a number from 2 to 1048576, not {0}")]
    Store(String),
    #[error("--system takes two, three or lanes, not {0}")]
    System(String),
    #[error("{0} is a second file, and only one is read")]
    SecondFile(String),
    #[error("--vcd names the file that the deck is in")]
    Overwriting,
    #[error("an argument is no text")]
    NoText,
}

#[derive(Debug, Drop)]
pub struct Options {
    pub help: bool,
    pub quiet: bool,
    pub records: usize,
    pub system: System,
    pub dump: Option<String>,
    pub file: Option<String>,
}

impl Options {
    fn new() -> Options {
        Options {
            help: false,
            quiet: false,
            records: RECORDS,
            system: System::Three,
            dump: None,
            file: None,
        }
    }

    // Takes the value after a flag. A word that begins as an option does is none.
    fn set(&mut self, flag: Flag, value: String) -> Result<(), Misuse> {
        if value.starts_with("-") {
            return Err(Misuse::Unfinished(flag));
        }
        match flag {
            Flag::Store => self.records = read_records(value)?,
            Flag::System => self.system = read_system(value)?,
            Flag::Vcd => self.dump = Some(value),
        }
        Ok(())
    }

    // Takes a word that is no value after a flag. Answers the flag whose value comes next, if one does.
    fn take(&mut self, word: String) -> Result<Option<Flag>, Misuse> {
        match word.as_str() {
            "--help" => self.help = true,
            "--quiet" => self.quiet = true,
            "--store" => return Ok(Some(Flag::Store)),
            "--system" => return Ok(Some(Flag::System)),
            "--vcd" => return Ok(Some(Flag::Vcd)),
            text if text.starts_with("-") && text != STANDARD => return Err(Misuse::Unknown(word)),
            _ if self.file.is_some() => return Err(Misuse::SecondFile(word)),
            _ => self.file = Some(word),
        }
        Ok(None)
    }

    // The dump must not go where the deck comes from, as far as their paths tell.
    fn check(&self) -> Result<(), Misuse> {
        match (&self.dump, &self.file) {
            (Some(dump), Some(file)) if dump == file => Err(Misuse::Overwriting),
            _ => Ok(()),
        }
    }
}

// Whether a text is decimal digits, of which the first is not 0.
fn is_number(text: &str) -> bool {
    !text.starts_with("0") && text.bytes().all(|byte| byte.is_ascii_digit())
}

fn read_records(text: String) -> Result<usize, Misuse> {
    match text.parse::<usize>() {
        Ok(records) if is_number(&text) && (2..=MOST_RECORDS).contains(&records) => Ok(records),
        _ => Err(Misuse::Store(text)),
    }
}

fn read_system(text: String) -> Result<System, Misuse> {
    match text.as_str() {
        "two" => Ok(System::Two),
        "three" => Ok(System::Three),
        "lanes" => Ok(System::Lanes),
        _ => Err(Misuse::System(text)),
    }
}

// Why the arguments cannot be had.
fn no_words(error: io::Error) -> Stop {
    match error.kind() {
        io::ErrorKind::InvalidData => Misuse::NoText.into(),
        _ => Stop::Memory(AllocError),
    }
}

// Reads the options from the program's arguments.
pub fn read<R: Runtime + AllocGlobal>(rt: &R) -> Result<Options, Stop> {
    let mut options = Options::new();
    let mut flag = None;
    for word in env::args(rt).map_err(no_words)?.skip(1) {
        flag = match flag {
            Some(flag) => {
                options.set(flag, word)?;
                None
            }
            None => options.take(word)?,
        };
    }
    if let Some(flag) = flag {
        return Err(Misuse::Unfinished(flag).into());
    }
    options.check()?;
    Ok(options)
}
