// Numbers in columns: a field of a record, right-justified after blanks.
#![tactic(auto)]

ghost use Rattle.std.specs.Prelude.{◌≡◌, ℕ, ◌-◌, ◌^◌, ◌<◌, ◌≤◌, ◌↔◌, ◌++◌, length, drop, replicate, decimal, codes, IsOk, OnOk, OnErr, MatchOption, Result, Ok, Some, ◌≢◌, slice_index};
ghost use Rattle.std.specs.Option.{SomeIff};
ghost use Rattle.std.specs.Str.Parse.{AllDigits, digits_value};
ghost use Rattle.columns.specs.Spelling.{Means, spelled};
ghost use Rattle.columns.specs.declared.FieldError.{FieldError};

use itoa::Buffer;
use std::error::Error;
use std::fmt;

const BLANK: u8 = b' ';

const ZERO: u8 = b'0';

const BASE: u64 = 10;

// Why columns are read as no number: they are all blank, or hold something else than one number after blanks.
#[derive(Clone, Copy, PartialEq, Eq, Debug)]
pub enum FieldError {
    Blank,
    Unreadable,
}

// Written out, since its text is promised; likewise the other error's.
impl fmt::Display for FieldError {
    ghost use Rattle.columns.specs.Messages.{message};

    ghost output = { λ error. Some (message error) };

    fn fmt<W: fmt::Write>(&self, f: &mut fmt::Formatter<W>) -> fmt::Result {
        f.write_str(match self {
            FieldError::Blank => "the columns are blank",
            FieldError::Unreadable => "the columns hold no number",
        })
    }
}

impl Error for FieldError {}

// The number whose decimal ends in the last column, after nothing but blanks.
pub fn read(text: &[u8]) -> Result<u64, FieldError>
    ensures means { Means text.now result }
    ensures only { (f : Result ℕ FieldError) → Means text.now f → f ≡ result }
{
    let blanks = blanks_before(text);
    if blanks == text.len() {
        return Err(FieldError::Blank);
    }
    number(&text[blanks..]).ok_or(FieldError::Unreadable)
}

// How many blanks the text begins with.
fn blanks_before(text: &[u8]) -> usize
    ensures within { result ≤ length text.now }
    ensures blank { text.now ≡ replicate result 32 ++ drop result text.now }
    ensures stops { slice_index text.now result ≢ 32 }
{
    text.iter()
        .position(|byte| *byte != BLANK)
        .unwrap_or(text.len())
}

// The number of which the digits are the decimal: a leading 0 stands only in the number 0.
#[tactic(auto, using(crate::proofs::Decimals::no_number, crate::proofs::Decimals::by_value))]
fn number(digits: &[u8]) -> Option<u64>
    ensures { MatchOption result ((n : ℕ) → n < 2 ^ 64 → digits.now ≢ decimal n) (λ n. (n < 2 ^ 64) × (digits.now ≡ decimal n)) }
{
    match digits {
        [b'0'] | [b'1'..=b'9', ..] => value_of(digits),
        _ => None,
    }
}

// The value of the digits, or nothing where a byte is no digit or the value does not fit. A loop, which stops at that byte:
// as text the bytes would be read twice, and all of them however long they are.
fn value_of(digits: &[u8]) -> Option<u64>
    ensures { SomeIff result (AllDigits 10 digits.now × (digits_value 10 digits.now < 2 ^ 64)) (digits_value 10 digits.now) }
{
    let mut total: u64 = 0;
    for digit in digits {
        if !digit.is_ascii_digit() {
            return None;
        }
        let shifted = total.checked_mul(BASE)?;
        total = shifted.checked_add(u64::from(*digit - ZERO))?;
    }
    Some(total)
}

// There are fewer columns than the number has digits.
#[derive(Clone, Copy, PartialEq, Eq, Debug)]
pub struct TooNarrow;

impl fmt::Display for TooNarrow {
    ghost output = { λ _. Some (codes "the number has more digits than there are columns") };

    fn fmt<W: fmt::Write>(&self, f: &mut fmt::Formatter<W>) -> fmt::Result {
        f.write_str("the number has more digits than there are columns")
    }
}

impl Error for TooNarrow {}

// Writes the number over all the columns, blanks before it. Where it does not fit, the columns stay as they were.
pub fn write(number: u64, columns: &mut [u8]) -> Result<(), TooNarrow>
    ensures fits { IsOk result ↔ (length (decimal number) ≤ length columns.old) }
    ensures spells { OnOk result (columns.new ≡ spelled (length columns.old) number) }
    ensures reads { OnOk result (Means columns.new (Ok number)) }
    ensures keeps { OnErr result (columns.new ≡ columns.old) }
{
    let mut buffer = Buffer::new();
    let digits = buffer.format(number).as_bytes();
    let blanks = columns.len().checked_sub(digits.len()).ok_or(TooNarrow)?;
    let (before, last) = columns.split_at_mut(blanks);
    before.fill(BLANK);
    last.copy_from_slice(digits);
    Ok(())
}

#[cfg(test)]
mod tests {
    use super::*;

    #[test]
    fn reads_each_kind_of_field(rt: HostRuntime) {
        let fields: [(&[u8], Result<u64, FieldError>); 17] = [
            (b"   1", Ok(1)),
            (b"   0", Ok(0)),
            (b"1203", Ok(1203)),
            (b"  18446744073709551615", Ok(u64::MAX)),
            (b"10000000000000000000", Ok(10_000_000_000_000_000_000)),
            (b"    ", Err(FieldError::Blank)),
            (b"", Err(FieldError::Blank)),
            (b"  18446744073709551616", Err(FieldError::Unreadable)),
            (b"99999999999999999999", Err(FieldError::Unreadable)),
            (b"  01", Err(FieldError::Unreadable)),
            (b"  1 ", Err(FieldError::Unreadable)),
            (b"1 23", Err(FieldError::Unreadable)),
            (b"-  1", Err(FieldError::Unreadable)),
            (b"+  1", Err(FieldError::Unreadable)),
            (b"  1\r", Err(FieldError::Unreadable)),
            (b"  1\0", Err(FieldError::Unreadable)),
            (b"\xff  1", Err(FieldError::Unreadable)),
        ];
        for (text, field) in fields {
            assert_eq!(rt; read(text), field);
        }
    }

    #[test]
    fn writes_over_all_columns(rt: HostRuntime) {
        let mut columns = *b"xxxxx";
        assert_eq!(rt; write(0, &mut columns), Ok(()));
        assert_eq!(rt; columns, *b"    0");
        assert_eq!(rt; write(1203, &mut columns), Ok(()));
        assert_eq!(rt; columns, *b" 1203");
        assert_eq!(rt; write(98765, &mut columns), Ok(()));
        assert_eq!(rt; columns, *b"98765");
        assert_eq!(rt; write(100_000, &mut columns), Err(TooNarrow));
        assert_eq!(rt; columns, *b"98765");
        assert_eq!(rt; write(0, &mut []), Err(TooNarrow));
    }
}
