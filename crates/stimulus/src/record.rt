// The fields of a stimulus's records.
ghost use Rattle.std.specs.Prelude.{◌≡◌, ◌≤◌, ◌∷◌, MatchResult};
ghost use Rattle.deck.specs.Records.{whole, Failed, Refuted};
ghost use Rattle.deck.specs.Tests.{columns, Shows, value_known};
ghost use Rattle.stimulus.specs.Rows.{text, Legal};
ghost use Rattle.stimulus.specs.Tests.{place_tests, feed_tests, hold_tests, end_tests};
ghost use Rattle.stimulus.specs.declared.entry.Entry.TheVariants.{End};
ghost use Rattle.values.specs.Knowledge as Knowledge;

use crate::entry::Entry;
use deck::fault::{Fault, Layer};
use deck::record::{Record, Span};
use netlist::refusal::Refusal;
use values::ternary::Ternary;

const LINE: Span = Span { first: 2, width: 4 };

const TICK: Span = Span {
    first: 6,
    width: 10,
};

const VALUE: Span = Span {
    first: 16,
    width: 2,
};

// The line and the tick.
fn place(source: &Record, lines: usize) -> Result<(u32, u32), Fault>
    ensures { MatchResult result (λ p. (Shows (whole source.now) 2 4 p.0 × (1 ≤ p.0) × (p.0 ≤ lines)) × Shows (whole source.now) 6 10 p.1 × (p.1 ≤ 4294967295)) (λ f. Failed (whole source.now) source.now.number (place_tests lines) f) }
{
    let line = source.number(LINE, 1, lines as u64)?;
    let tick = source.number(TICK, 0, u32::MAX as u64)?;
    Ok((line as u32, tick as u32))
}

// The value, whose letter stands after a blank.
fn value(source: &Record) -> Result<Ternary, Fault>
    ensures { MatchResult result (λ v. columns (whole source.now) 16 2 ≡ 32 ∷ Knowledge.letter v) (λ f. Refuted (whole source.now) source.now.number value_known f) }
{
    let fault = source.fault(Refusal::Kind, Layer::Record, VALUE.first);
    let Some(letter) = source.columns(VALUE) else {
        return Err(fault);
    };
    match letter {
        b" 0" => Ok(Ternary::Zero),
        b" 1" => Ok(Ternary::One),
        b" X" => Ok(Ternary::X),
        _ => Err(fault),
    }
}

// F: the line, the tick and the value. This and the next two each ask for a letter of their own, which the match has found.
pub(crate) fn feed(source: &Record, lines: usize) -> Result<Entry, Fault>
    requires { source.now.letter ≡ 70 }
    ensures { MatchResult result (λ e. (whole source.now ≡ text e) × Legal lines e) (λ f. Failed (whole source.now) source.now.number (feed_tests lines) f) }
{
    source.length(&[17])?;
    let (line, tick) = place(source, lines)?;
    let value = value(source)?;
    Ok(Entry::Feed { line, tick, value })
}

// H: the line and the tick.
pub(crate) fn hold(source: &Record, lines: usize) -> Result<Entry, Fault>
    requires { source.now.letter ≡ 72 }
    ensures { MatchResult result (λ e. (whole source.now ≡ text e) × Legal lines e) (λ f. Failed (whole source.now) source.now.number (hold_tests lines) f) }
{
    source.length(&[15])?;
    let (line, tick) = place(source, lines)?;
    Ok(Entry::Hold { line, tick })
}

// E: nothing but its letter.
pub(crate) fn end(source: &Record) -> Result<Entry, Fault>
    requires { source.now.letter ≡ 69 }
    ensures { MatchResult result (λ e. (e ≡ End) × (whole source.now ≡ text e)) (λ f. Failed (whole source.now) source.now.number end_tests f) }
{
    source.length(&[1])?;
    Ok(Entry::End)
}
