// Logs in related value systems have related values, also where the rooms are not the same.
ghost use Rattle.std.specs.Prelude.{◌≡◌, ℕ, Bool, true, Contains};
ghost use Rattle.netlist.specs.Gates.{Circuit};
ghost use Rattle.semantics.specs.Circuits.{Wired};
ghost use Rattle.semantics.specs.CircuitMachine.{machine};
ghost use Rattle.semantics.specs.Laws.{TiesLines};
ghost use Rattle.values.specs.Knowledge.{three_valued, stands_for};
ghost use Rattle.values.specs.Lanes.{lanes};
ghost use Rattle.values.specs.Relations.{Kept, Tied};
ghost use Rattle.values.specs.Systems.{two_valued};

use values::bit::Bit;
use values::lane::Lane;
use values::lanes::Lanes;
use values::relation::Relation;
use values::stands_for::StandsFor;
use values::system::ValueSystem;
use values::ternary::Ternary;

// Whether a kept relation ties START to START. It does, and so it ties all that two logs make of tied inputs.
pub fn kept_relations_tie_lines<V: ValueSystem, W: ValueSystem, R: Relation<V, W>>(
    relation: &R,
) -> bool
    ensures ties_start { result ≡ true }
    ensures ties_lines { (c : Circuit) (room other : ℕ) → Wired c → TiesLines (machine V.system c room) (machine W.system c other) (Tied V.meaning W.meaning (R.Ties relation.now)) }
{
    relation.ties(V::START, W::START)
}

// The same for every kept relation of meanings that a test decides.
pub fn kept_tests_tie_lines<V: ValueSystem, W: ValueSystem>()
    ensures tie_lines { (test : V.Sense → W.Sense → Bool) → Kept V.system W.system (λ left right. test left right ≡ true) → (c : Circuit) (room other : ℕ) → Wired c → TiesLines (machine V.system c room) (machine W.system c other) (λ left right. test left right ≡ true) }
{}

// Each lane of a simulation of words is a simulation of bits.
pub fn a_lane_simulates_bits(lane: Lane) -> bool
    ensures ties_start { result ≡ true }
    ensures has_the_bits { (c : Circuit) (room other : ℕ) → Wired c → TiesLines (machine lanes c room) (machine two_valued c other) (λ word bit. word lane ≡ bit) }
{
    kept_relations_tie_lines::<Lanes, Bit, Lane>(&lane)
}

// A three-valued simulation stands for each simulation of bits for which its inputs stand.
pub fn a_value_stands_for_all_that_may_be() -> bool
    ensures ties_start { result ≡ true }
    ensures stands_for_the_bits { (c : Circuit) (room other : ℕ) → Wired c → TiesLines (machine three_valued c room) (machine two_valued c other) (λ value bit. Contains (stands_for value) bit) }
{
    kept_relations_tie_lines::<Ternary, Bit, StandsFor>(&StandsFor)
}
