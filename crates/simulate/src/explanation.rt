// Refusals in words.
use netlist::refusal::Refusal;

pub fn of(refusal: Refusal) -> &'static str {
    match refusal {
        Refusal::Cut => "the bytes end inside a record, or before the end record",
        Refusal::Letter => "an empty record, an unknown letter, or a record out of order",
        Refusal::Length => "a record has a length that its letter does not allow",
        Refusal::Figure => "the columns of a field are no number",
        Refusal::Range => "a number is outside its limits, or no line of the netlist",
        Refusal::Turn => "the line is not the next",
        Refusal::Kind =>
            "an unknown kind or value, or a count of inputs that the kind does not take",
        Refusal::Open => "gates or outputs are missing",
        Refusal::Free => "no input reaches the gate",
        Refusal::Line => "the line is no input",
        Refusal::Past => "the tick is below what the line was given already",
        Refusal::Late => "the tick is beyond the last that can be given",
        Refusal::Full => "there is no room for another change of the line (--store keeps more)",
        // What no record is refused for.
        other => other.word(),
    }
}
