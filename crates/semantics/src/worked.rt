// Worked logs, computed: what they come to, and that there are such logs.
ghost use Rattle.std.specs.Prelude.{◌≡◌, List, [], ◌∷◌};
ghost use Rattle.values.specs.Knowledge.{three_valued};
ghost use Rattle.semantics.specs.Accounts.{KeptChanges};
ghost use Rattle.semantics.specs.CircuitMachine.{machine};
ghost use Rattle.semantics.specs.Logs.{Ending, Run};
ghost use Rattle.semantics.specs.Worked.{pulse, pulse_and_on, latch, bits, settled_times, stopped, FullLine, freed, FreedLine, held_up, HeldUpLine, at_once, early_first, in_stretches, AnyOrder, ahead, caught_up, FrontAhead, known, KnownLines, latched, LatchedLines};

// How far the three lines are settled where one change of each is kept, and line 3 is full at 13.
#[tactic(auto, using(crate::proofs::Working::full_line))]
pub fn times_with_a_full_line() -> [u32; 3]
    ensures are_settled_times { result ≡ settled_times pulse stopped (1 ∷ 2 ∷ 3 ∷ []) }
    ensures at_a_rest { FullLine }
{
    [20, 22, 13]
}

// How far the two gate lines are settled once the first change of line 3 is dropped.
#[tactic(auto, using(crate::proofs::Working::freed_line))]
pub fn times_once_freed() -> [u32; 2]
    ensures are_settled_times { result ≡ settled_times pulse freed (2 ∷ 3 ∷ []) }
    ensures at_a_rest { FreedLine }
{
    [22, 21]
}

// How far the full line is settled, and a line that reads it with a delay of 4.
#[tactic(auto, using(crate::proofs::Working::held_up_line))]
pub fn times_behind_a_full_line() -> [u32; 2]
    ensures are_settled_times { result ≡ settled_times pulse_and_on held_up (3 ∷ 4 ∷ []) }
    ensures at_a_rest { HeldUpLine }
{
    [13, 17]
}

// How far the three lines are settled where two changes of each are kept, in one run, in two, or in another order.
#[tactic(auto, using(crate::proofs::Working::any_order))]
pub fn times_in_any_order() -> [u32; 3]
    ensures are_those_of_one_run { result ≡ settled_times pulse at_once (1 ∷ 2 ∷ 3 ∷ []) }
    ensures are_those_of_two { result ≡ settled_times pulse in_stretches (1 ∷ 2 ∷ 3 ∷ []) }
    ensures are_those_of_another_order { result ≡ settled_times pulse early_first (1 ∷ 2 ∷ 3 ∷ []) }
    ensures at_rests { AnyOrder }
{
    [20, 22, 21]
}

// How many takes a run makes which begins with the front of line 2 ahead of that of line 3.
#[tactic(auto, using(crate::proofs::Working::ahead_run, crate::proofs::Working::front_ahead))]
pub fn takes_with_a_front_ahead() -> u32
    ensures are_those_of_the_run { Run (bits 2) 5 ahead caught_up result Ending.rest }
    ensures of_a_log { FrontAhead }
{
    3
}

// Where line 3 changes if nothing is known of line 1 below tick 0.
#[tactic(auto, using(crate::proofs::Working::kept_by_third, crate::proofs::Working::known_lines))]
pub fn changes_of_a_line_unknown_at_first() -> [u32; 3]
    ensures are_kept { KeptChanges (machine three_valued pulse 3) known 3 result }
    ensures at_a_rest { KnownLines }
{
    [1, 11, 13]
}

// How far the two lines of a latch are settled.
#[tactic(auto, using(crate::proofs::Working::latched_lines))]
pub fn times_of_a_latch() -> [u32; 2]
    ensures are_settled_times { result ≡ settled_times latch latched (3 ∷ 4 ∷ []) }
    ensures at_a_rest { LatchedLines }
{
    [11, 11]
}
