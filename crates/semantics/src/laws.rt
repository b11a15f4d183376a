// The laws of settled lines in one value system, for all wired circuits, rooms and logs.
ghost use Rattle.std.specs.Prelude.{◌≡◌, ℕ, ◌+◌, ◌*◌, length};
ghost use Rattle.netlist.specs.Gates.{Circuit};
ghost use Rattle.netlist.specs.Judging.{AllReached};
ghost use Rattle.semantics.specs.Circuits.{lines, Wired};
ghost use Rattle.semantics.specs.CircuitMachine.{machine};
ghost use Rattle.semantics.specs.Laws.{RuleDeterminesValues, LogsAreInOrder, KeptChangesFit, GatesRestOrCanBeTaken, RestIsWhereNoGateCanBeTaken, CallsAreDetermined, RunsHaveOutcomes, RunsComeToRest, SettledValuesStay, SettledTimesAreBounded, TakesAreBounded, SettledIsTheDistance, AlikeRestsAgree};
ghost use Rattle.values.specs.Knowledge.{three_valued};
ghost use Rattle.values.specs.Lanes.{lanes};
ghost use Rattle.values.specs.Systems.{two_valued};

use values::bit::Bit;
use values::lanes::Lanes;
use values::system::ValueSystem;
use values::ternary::Ternary;

// Whatever the inputs are given, just one way to begin and to go on obeys the rule of a line.
pub fn the_rule_determines_values<V: ValueSystem>()
    ensures in_every_circuit { (c : Circuit) → Wired c → RuleDeterminesValues V.system c }
{}

// In every log ends, fronts and the trim tick are in order, and inputs keep their last values.
pub fn logs_are_in_order<V: ValueSystem>()
    ensures in_every_log { (c : Circuit) (room : ℕ) → Wired c → LogsAreInOrder (machine V.system c room) }
{}

// In every log each line has one list of kept changes, and there is room for it.
pub fn kept_changes_fit<V: ValueSystem>()
    ensures in_every_log { (c : Circuit) (room : ℕ) → Wired c → KeptChangesFit (machine V.system c room) }
{}

// Every gate rests or can be taken, if it can be told where its line changes on the way to its goal; and not both.
pub fn gates_rest_or_can_be_taken<V: ValueSystem>()
    ensures in_every_log { (c : Circuit) (room : ℕ) → Wired c → GatesRestOrCanBeTaken (machine V.system c room) }
{}

// At rest, and only there, no gate can be taken.
pub fn rest_is_where_no_gate_can_be_taken<V: ValueSystem>()
    ensures where_meanings_can_be_compared { ((x y : V.Sense) → Dec (x ≡ y)) → (c : Circuit) (room : ℕ) → Wired c → RestIsWhereNoGateCanBeTaken (machine V.system c room) }
{}

// The meanings of each of the three systems can be compared.
pub fn meanings_can_be_compared()
    ensures in_two_values { (x y : ⟦<Bit as ValueSystem>⟧.Sense) → Dec (x ≡ y) }
    ensures in_three_values { (x y : ⟦<Ternary as ValueSystem>⟧.Sense) → Dec (x ≡ y) }
    ensures in_lanes { (x y : ⟦<Lanes as ValueSystem>⟧.Sense) → Dec (x ≡ y) }
{}

// So in each of them no more is asked for rest to be where no gate can be taken.
pub fn rest_is_so_in_the_three_systems()
    ensures in_two_values { (c : Circuit) (room : ℕ) → Wired c → RestIsWhereNoGateCanBeTaken (machine two_valued c room) }
    ensures in_three_values { (c : Circuit) (room : ℕ) → Wired c → RestIsWhereNoGateCanBeTaken (machine three_valued c room) }
    ensures in_lanes { (c : Circuit) (room : ℕ) → Wired c → RestIsWhereNoGateCanBeTaken (machine lanes c room) }
{
    meanings_can_be_compared();
    rest_is_where_no_gate_can_be_taken::<Bit>();
    rest_is_where_no_gate_can_be_taken::<Ternary>();
    rest_is_where_no_gate_can_be_taken::<Lanes>();
}

// A take or a run leads from an account to one account only, and a run has one answer only.
pub fn calls_are_determined<V: ValueSystem>()
    ensures from_every_account { (c : Circuit) (room : ℕ) → CallsAreDetermined (machine V.system c room) }
{}

// A run of any number of takes has an outcome.
pub fn runs_have_outcomes<V: ValueSystem>()
    ensures where_meanings_can_be_compared { ((x y : V.Sense) → Dec (x ≡ y)) → (c : Circuit) (room : ℕ) → Wired c → RunsHaveOutcomes (machine V.system c room) }
{}

// If every gate is reached by an input, every log can be brought to rest: a run long enough ends there.
pub fn runs_come_to_rest<V: ValueSystem>()
    ensures where_meanings_can_be_compared { ((x y : V.Sense) → Dec (x ≡ y)) → (c : Circuit) (room : ℕ) → Wired c → AllReached c → RunsComeToRest (machine V.system c room) }
{}

// No call makes a line settled less, or alters a value that is settled.
pub fn settled_values_stay<V: ValueSystem>()
    ensures whatever_is_called { (c : Circuit) (room : ℕ) → Wired c → SettledValuesStay (machine V.system c room) }
{}

// If every gate is reached by an input, no line is settled further than the latest tick at which an input may end, and the
// greatest delay for each line.
pub fn settled_times_are_bounded<V: ValueSystem>()
    ensures in_every_log { (c : Circuit) (room : ℕ) → Wired c → AllReached c → SettledTimesAreBounded (machine V.system c room) (2000000000 + 65535 * lines c) }
{}

// If every gate is reached by an input, the takes made one after another are for each gate at most as many as there are ticks
// up to there: each moves its front by one or more.
pub fn takes_are_bounded<V: ValueSystem>()
    ensures in_every_log { (c : Circuit) (room : ℕ) → Wired c → AllReached c → TakesAreBounded (machine V.system c room) (length c.gates * (2000000000 + 65535 * lines c)) }
{}

// At rest every line is settled exactly to its distance.
pub fn settled_is_the_distance<V: ValueSystem>()
    ensures at_every_rest { (c : Circuit) (room : ℕ) → Wired c → SettledIsTheDistance (machine V.system c room) }
{}

// Two logs that were given the same agree once both are at rest, however they were cut and in whatever order gates were taken.
pub fn alike_rests_agree<V: ValueSystem>()
    ensures whatever_the_order { (c : Circuit) (room : ℕ) → Wired c → AlikeRestsAgree (machine V.system c room) }
{}
