// One case: its lists are read into arrays that are lent to the call, and what the call leaves is compared with what the case
// wants.
ghost use Rattle.texts.specs.Reading.{Onward};

use crate::compare;
use cases::{Stop, Text, read_wanted};

// More than the most tracks and items, so that lists that are too long for the sheet can be tried. The memory is fixed.
const MOST_TRACKS: usize = 300;

const MOST_ITEMS: usize = 1100;

// The number of each call. They are numbers since the files of cases hold such, and `Text::call` has bounded what is read: the arm of all
// others takes the last of them.
const READ: u32 = 0;

const WRITE: u32 = 1;

const END: u32 = 2;

fn check_read(text: &mut Text) -> Result<bool, Stop>
    ensures { Onward text.old result text.new }
{
    let mut bytes = io::large_buffer();
    let mut tracks = [[0u32; 4]; MOST_TRACKS];
    let mut items = [[0u32; 7]; MOST_ITEMS];
    let mut tracks_after = [[0u32; 4]; MOST_TRACKS];
    let mut items_after = [[0u32; 7]; MOST_ITEMS];
    let bytes = text.hex(&mut bytes)?;
    let tracks = text.rows(&mut tracks)?;
    let items = text.rows(&mut items)?;
    let wanted = read_wanted(text)?;
    // A case that wants a refusal has no space.
    let space = if wanted.is_err() { [0; 6] } else { text.row()? };
    let tracks_after = text.rows(&mut tracks_after)?;
    let items_after = text.rows(&mut items_after)?;
    Ok(compare::reads(
        wanted,
        space,
        bytes,
        tracks,
        items,
        tracks_after,
        items_after,
    ))
}

fn check_write(text: &mut Text) -> Result<bool, Stop>
    ensures { Onward text.old result text.new }
{
    let mut tracks = [[0u32; 4]; MOST_TRACKS];
    let mut items = [[0u32; 7]; MOST_ITEMS];
    let mut bytes = io::large_buffer();
    let mut after = io::large_buffer();
    let space = text.row()?;
    let tracks = text.rows(&mut tracks)?;
    let items = text.rows(&mut items)?;
    let bytes = text.hex(&mut bytes)?;
    let wanted = read_wanted(text)?;
    let after = text.hex(&mut after)?;
    Ok(compare::writes(wanted, space, tracks, items, bytes, after))
}

fn check_end(text: &mut Text) -> Result<bool, Stop>
    ensures { Onward text.old result text.new }
{
    let mut bytes = io::large_buffer();
    let bytes = text.hex(&mut bytes)?;
    let wanted = read_wanted(text)?;
    Ok(compare::ends(wanted, bytes))
}

// The case whose call's number is next.
pub fn check_case(text: &mut Text) -> Result<bool, Stop>
    ensures { Onward text.old result text.new }
{
    match text.call(END)? {
        READ => check_read(text),
        WRITE => check_write(text),
        _ => check_end(text),
    }
}
