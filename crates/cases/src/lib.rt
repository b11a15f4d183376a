// Worked cases: sessions and decks with what has to come of them, and that the definitions yield just that.
#![tactic(auto)]

ghost use Rattle.std.specs.Prelude.{◌≡◌, length};
ghost use Rattle.cases.specs.Cases.{AllYielded};
ghost use Rattle.cases.specs.Table.{table};

// How many worked cases there are.
#[tactic(auto, using(crate::proofs::Yielded::all_yielded))]
pub fn worked_cases() -> u32
    ensures tells_how_many_rows { result ≡ length table }
    ensures definitions_yield_the_table { AllYielded table }
{
    13
}
