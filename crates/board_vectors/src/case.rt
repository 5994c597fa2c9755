// One case: its sheet and its sizes are read into arrays that are lent to the board, and what the board leaves is compared with
// what the case wants.
ghost use Rattle.texts.specs.Reading.{Onward};

use crate::compare::is_given;
use crate::told::read_told;
use cases::{Stop, Text};

// More than a sheet and its tracks can have, so that both can be too many. The memory is fixed.
const MOST_BYTES: usize = 24000;

const MOST_PLACES: usize = 320;

// The sizes are a base and a limit each.
pub fn check_case(text: &mut Text) -> Result<bool, Stop>
    ensures { Onward text.old result text.new }
{
    let mut bytes = [0u8; MOST_BYTES];
    let mut sizes = [[0u32; 2]; MOST_PLACES];
    let mut after = [[0u32; 2]; MOST_PLACES];
    let bytes = text.hex(&mut bytes)?;
    let sizes = text.rows(&mut sizes)?;
    let told = read_told(text)?;
    let after = text.rows(&mut after)?;
    Ok(is_given(told, bytes, sizes, after))
}
