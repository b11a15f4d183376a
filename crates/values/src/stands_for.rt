// Which bits a three-valued value stands for, as a relation.
ghost use Rattle.std.specs.Prelude.{Contains};
ghost use Rattle.values.specs.Knowledge.{stands_for};

use crate::bit::Bit;
use crate::relation::Relation;
use crate::ternary::Ternary;

// 0 and 1 are tied to themselves, X to both.
#[derive(Clone, Copy, PartialEq, Eq, Debug)]
pub struct StandsFor;

impl Relation<Ternary, Bit> for StandsFor {
    ghost Ties = { λ _ value bit. Contains (stands_for value) bit.0 };

    #[tactic(auto, using(crate::proofs::Knowledge::stands_for_kept))]
    fn ties(&self, left: Ternary, right: Bit) -> bool {
        left.stands_for(right)
    }
}
