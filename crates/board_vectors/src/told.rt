// What a case wants told: a refusal's number and place, or a board's tracks and rounds, and beside these its free space.
ghost use Rattle.std.specs.Prelude.{◌≡◌};
ghost use Rattle.texts.specs.Reading.{Onward};
ghost use Rattle.std.specs.Bool.{then_some};
ghost use Rattle.board_vectors.specs.Wanted.{signed};

use cases::{Stop, Text, Wanted, read_wanted};

#[derive(Clone, Copy)]
pub struct Told {
    pub wanted: Wanted,
    // Below 0 where the dots are short.
    pub free: Option<i64>,
}

fn signed_dots(is_short: bool, dots: u32) -> i64
    ensures { result ≡ signed is_short dots }
{
    let dots = i64::from(dots);
    if is_short { -dots } else { dots }
}

// The free space that is wanted. Apart from reading, which promises no value.
fn wanted_free(has_free: bool, is_short: bool, dots: u32) -> Option<i64>
    ensures { result ≡ then_some has_free (signed is_short dots) }
{
    has_free.then_some(signed_dots(is_short, dots))
}

// A mark, whether there is free space, a mark, whether it is below 0, and how many dots it is from 0.
fn read_free(text: &mut Text) -> Result<Option<i64>, Stop>
    ensures { Onward text.old result text.new }
{
    let has_free = text.mark()?;
    let is_short = text.mark()?;
    let dots = text.number()?;
    Ok(wanted_free(has_free, is_short, dots))
}

pub fn read_told(text: &mut Text) -> Result<Told, Stop>
    ensures { Onward text.old result text.new }
{
    let wanted = read_wanted(text)?;
    let free = read_free(text)?;
    Ok(Told { wanted, free })
}
