// Relations between the meanings of two value systems.
ghost use Rattle.std.specs.Prelude.{Decides};
ghost use Rattle.values.specs.Relations.{Tied, Kept};

use crate::system::ValueSystem;

// A relation that is kept: it ties START to START, and what NOT, AND, OR and XOR answer wherever it ties the operands.
pub trait Relation<V: ValueSystem, W: ValueSystem> {
    ghost Ties: { Self → V → W → Type 0 };

    // Whether the meanings of two values are tied.
    fn ties(&self, left: V, right: W) -> bool
        ensures decides_tied { Decides result (Tied V.meaning W.meaning (Ties self.now) (V.meaning left) (W.meaning right)) }
        ensures is_kept { Kept V.system W.system (Tied V.meaning W.meaning (Ties self.now)) };
}
