// What a gate shows of the values that it reads, in any value system.
#![tactic(auto)]

ghost use Rattle.std.specs.Prelude.{◌≡◌, map, true, Decides};
ghost use Rattle.std.specs.List.{AllZip};
ghost use Rattle.gates.specs.Functions.{combined, finished, gate_function};
ghost use Rattle.values.specs.Relations.{Tied};

use netlist::kind::Kind;
use values::relation::Relation;
use values::system::ValueSystem;

// The next operand combined with the fold of those before it.
pub fn combine<V: ValueSystem>(kind: Kind, fold: V, next: V) -> V
    ensures answers_the_combined { V.meaning result ≡ combined V.system kind (V.meaning fold) (V.meaning next) }
{
    match kind {
        Kind::Buf | Kind::Not => fold,
        Kind::And | Kind::Nand => fold.and(next),
        Kind::Or | Kind::Nor => fold.or(next),
        Kind::Xor | Kind::Xnor => fold.xor(next),
    }
}

// What a gate shows once all its operands are folded.
pub fn finish<V: ValueSystem>(kind: Kind, fold: V) -> V
    ensures answers_the_finished { V.meaning result ≡ finished V.system kind (V.meaning fold) }
{
    match kind {
        Kind::Buf | Kind::And | Kind::Or | Kind::Xor => fold,
        Kind::Not | Kind::Nand | Kind::Nor | Kind::Xnor => fold.not(),
    }
}

// What a gate shows of its operands, from first to last.
pub fn gate<V: ValueSystem>(kind: Kind, operands: &[V]) -> V
    ensures answers_the_gate_function { V.meaning result ≡ gate_function V.system kind (map V.meaning operands.now) }
{
    let [first, rest @ ..] = operands else {
        return V::START;
    };
    let mut fold = *first;
    for next in rest {
        fold = combine(kind, fold, *next);
    }
    finish(kind, fold)
}

// Whether gates of one kind in two systems show tied values. They do wherever their operands are tied one by one.
#[tactic(auto, using(crate::proofs::Ties::gates_tied))]
pub fn gates_tied<V: ValueSystem, W: ValueSystem, R: Relation<V, W>>(
    relation: &R,
    kind: Kind,
    left: &[V],
    right: &[W],
) -> bool
    ensures decides_tied_gates { Decides result (Tied V.meaning W.meaning (R.Ties relation.now) (gate_function V.system kind (map V.meaning left.now)) (gate_function W.system kind (map W.meaning right.now))) }
    ensures tied_wherever_the_operands_are { AllZip (Tied V.meaning W.meaning (R.Ties relation.now)) (map V.meaning left.now) (map W.meaning right.now) → result ≡ true }
{
    relation.ties(gate(kind, left), gate(kind, right))
}
