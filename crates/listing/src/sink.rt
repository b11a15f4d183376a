// Where a listing goes.
ghost use Rattle.std.specs.Prelude.{ℕ, List, MatchResult};
ghost use Rattle.std.specs.Io.KnownBytes.{Appends};
ghost use Rattle.std.specs.declared.option.Option.{Option};

use arrayvec::ArrayVec;
use std::io;
use std::io::{ErrorKind, Write};

// What takes bytes. It tells what it holds, if that is known, and refuses bytes only where it says so, which also tells what
// becomes of it then.
pub trait Sink {
    ghost contents: { Self → Option (List ℕ) };

    ghost Refuses: { Self → List ℕ → Self → Type 0 };

    fn put(&mut self, bytes: &[u8]) -> io::Result<()>
        ensures takes_or_refuses { MatchResult result (λ _. Appends (contents self.old) (contents self.new) bytes.now) (λ _. Refuses self.old bytes.now self.new) };
}

// A writer may fail at any time.
#[derive(Drop)]
pub struct Writing<W>(pub W);

impl<W: Write> Sink for Writing<W> {
    ghost contents = { λ sink. W.contents sink.0 };

    ghost Refuses = { λ _ _ _. Unit {0} };

    fn put(&mut self, bytes: &[u8]) -> io::Result<()> {
        self.0.write_all(bytes)
    }
}

// A vector of bounded length refuses what is too long for it, and nothing else, and stays as it was.
impl<const CAP: usize> Sink for ArrayVec<u8, CAP> {
    ghost use Rattle.std.specs.Prelude.{◌≡◌, ◌+◌, ◌<◌, Some, length};

    ghost contents = { λ sink. Some sink.items };

    ghost Refuses = { λ old bytes new. (CAP < length old.items + length bytes) × (new ≡ old) };

    fn put(&mut self, bytes: &[u8]) -> io::Result<()> {
        self.try_extend_from_slice(bytes)
            .or(Err(ErrorKind::StorageFull.into()))
    }
}
