// The tracks of a case, and whether two lists of them are the same.
ghost use Rattle.std.specs.Prelude.{◌≡◌, true};
ghost use Rattle.texts.specs.Reading.{Onward};
ghost use Rattle.float_vectors.specs.Wanted.{row_bits, rows_bits};

use crate::numbers::{bits, read_float};
use cases::{Stop, Text};

// A track is five floats. `Text::row` reads numbers alone: handed the reading of an entry it would ask of that what `Text::list` asks.
pub fn read_row(text: &mut Text) -> Result<[f32; 5], Stop>
    ensures { Onward text.old result text.new }
{
    let mut row = [0.0f32; 5];
    for float in row.iter_mut() {
        *float = read_float(text)?;
    }
    Ok(row)
}

fn bits_of_row(row: [f32; 5]) -> [u32; 5]
    ensures { result ≡ row_bits row }
{
    row.map(bits)
}

pub fn same_row(a: [f32; 5], b: [f32; 5]) -> bool
    ensures { result ≡ true → row_bits a ≡ row_bits b }
{
    bits_of_row(a) == bits_of_row(b)
}

// By the bits of each row: `==` on floats is another question. By index: over `zip` what the loop keeps true would be said at the number of pairs
// that were yielded, which is this index.
pub fn same_rows(a: &[[f32; 5]], b: &[[f32; 5]]) -> bool
    ensures { result ≡ true → rows_bits a.now ≡ rows_bits b.now }
{
    if a.len() != b.len() {
        return false;
    }
    for (i, row) in a.iter().enumerate() {
        if !same_row(*row, b[i]) {
            return false;
        }
    }
    true
}
