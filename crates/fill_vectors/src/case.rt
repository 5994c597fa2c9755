// One case: its numbers are read into arrays that are lent to the fill, and what it gives is compared with what the case wants.
ghost use Rattle.texts.specs.Reading.{Onward};

use crate::compare::is_given;
use cases::{Stop, Text, read_wanted};

// More than the most tracks, so that lists that are too long for the fill can be tried. The memory is fixed.
const MOST_ENTRIES: usize = 300;

// The case whose dots are the next number.
pub fn check_case(text: &mut Text) -> Result<bool, Stop>
    ensures { Onward text.old result text.new }
{
    let mut affected = [false; MOST_ENTRIES];
    let mut limited = [false; MOST_ENTRIES];
    let mut rooms = [0u32; MOST_ENTRIES];
    let mut gains = [0u32; MOST_ENTRIES];
    let mut after = [0u32; MOST_ENTRIES];
    let dots = text.number()?;
    let affected = text.list(&mut affected, Text::mark)?;
    let limited = text.list(&mut limited, Text::mark)?;
    let rooms = text.list(&mut rooms, Text::number)?;
    let gains = text.list(&mut gains, Text::number)?;
    let wanted = read_wanted(text)?;
    let after = text.list(&mut after, Text::number)?;
    Ok(is_given(wanted, dots, affected, limited, rooms, gains, after))
}
