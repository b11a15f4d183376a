// Lists the deck and its stimulus that are on standard input: the changes of the outputs, or the first fault.
#![tactic(auto)]

use arrayvec::ArrayVec;
use listing::lister::{MOST_BYTES, list};
use listing::sink::Writing;
use std::io;
use std::io::{BufWriter, Read, Write};

fn main(rt: HostRuntime) -> io::Result<()> {
    let mut bytes: ArrayVec<u8, MOST_BYTES> = ArrayVec::new();
    io::copy(&mut rt.stdin().take(MOST_BYTES as u64), &mut bytes)?;
    let mut out = Writing(BufWriter::new(rt.alloc(), rt.stdout())?);
    list(&bytes, &mut out)?;
    out.0.flush()
}
