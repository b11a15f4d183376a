// The rows of a listing.
ghost use Rattle.std.specs.Prelude.{◌≡◌, [], ◌∷◌};
ghost use Rattle.listing.specs.Rows as Rows;
ghost use Rattle.values.specs.Knowledge as Knowledge;

use values::ternary::Ternary;

// The row of a line: L, the line, how far it is settled, and how many changes of it are kept.
pub fn line_row(line: u32, settled: u32, kept: usize) -> [u8; 20]
    ensures { result ≡ Rows.line_row line settled kept }
{
    let mut row = *b"L                  \n";
    let _ = columns::write(line as u64, &mut row[1..5]);
    let _ = columns::write(settled as u64, &mut row[5..15]);
    let _ = columns::write(kept as u64, &mut row[15..19]);
    row
}

// The letter of a value.
fn letter(value: Ternary) -> u8
    ensures { result ∷ [] ≡ Knowledge.letter value }
{
    match value {
        Ternary::Zero => b'0',
        Ternary::One => b'1',
        Ternary::X => b'X',
    }
}

// The row of a change: C, its tick, and the letter of the value from there on.
pub fn change_row(tick: u32, value: Ternary) -> [u8; 14]
    ensures { result ≡ Rows.change_row tick value }
{
    let mut row = *b"C            \n";
    let _ = columns::write(tick as u64, &mut row[1..11]);
    row[12] = letter(value);
    row
}
