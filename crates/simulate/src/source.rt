// Where the deck and its stimulus come from.
use crate::options::{Options, STANDARD};
use crate::stop::Stop;
use listing::lister::MOST_BYTES;
use std::alloc::Global;
use std::fs::File;
use std::io;
use std::io::Read;
use std::rt::Runtime;

// The bytes of a deck and its stimulus, and whether more follow, which are not read.
#[derive(Drop)]
pub struct Source {
    pub bytes: Vec<u8>,
    pub more: bool,
}

// Reads one byte beyond the most, to know whether more follow.
fn read_all<S: Read + Drop>(alloc: Global, source: S) -> io::Result<Source> {
    let mut bytes = Vec::new(alloc);
    io::copy(&mut source.take(MOST_BYTES as u64 + 1), &mut bytes)?;
    let more = bytes.len() > MOST_BYTES;
    bytes.truncate(MOST_BYTES);
    Ok(Source { bytes, more })
}

fn read_file<R: Runtime + AllocGlobal>(rt: &R, path: &str) -> io::Result<Source> {
    read_all(rt.alloc(), File::open(rt, path)?)
}

// Reads the file that the options name, or standard input.
pub fn read<R: Runtime + AllocGlobal>(rt: &R, options: &Options) -> Result<Source, Stop> {
    match &options.file {
        Some(path) if path.as_str() != STANDARD => match read_file(rt, path) {
            Ok(source) => Ok(source),
            Err(error) => Err(Stop::File {
                path: path.clone()?,
                action: "read",
                error,
            }),
        },
        _ => read_all(rt.alloc(), rt.reader()).map_err(Stop::Input),
    }
}
