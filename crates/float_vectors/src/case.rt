// One case: its arguments are read into arrays that are lent to the routine, and what the routine leaves is compared with what
// the case wants. Every case has the same fields; those that its routine has no use for are 0, or empty lists.
ghost use Rattle.texts.specs.Reading.{Onward};

use crate::answers::Told;
use crate::calls::{
    is_adjusted, is_base_flushed, is_distributed, is_fr_size, is_limit_flushed, is_maximised,
    is_stretched,
};
use crate::choices::{LAST_ALIGNMENT, LAST_SPACE, alignment_of, size_of, space_of};
use crate::numbers::read_float;
use crate::rows::read_row;
use cases::{Stop, Text, read_wanted};
use floats::Track;

// More than the most tracks, so that lists that are too long for the routines can be tried. The memory is fixed.
const MOST_ENTRIES: usize = 300;

// The number of each routine; 0 and 1 are the flushes. They are numbers since the files of cases hold such, and `Text::call` has bounded
// what is read: the arm of all others takes the last of them.
const FLUSH_BASE: u32 = 0;

const GUTTER: u32 = 2;

const DISTRIBUTION: u32 = 3;

const FR: u32 = 4;

const MAXIMISE: u32 = 5;

const STRETCH: u32 = 6;

// The routine's number and its arguments that are no lists: the number of an alignment or of a kind of space, the space, a mark
// (whether a size is given, or the one that a limit gets), and the size.
#[derive(Clone, Copy)]
struct Given {
    routine: u32,
    choice: u32,
    space: f32,
    mark: bool,
    size: f32,
}

// The lists that are lent.
#[derive(Drop)]
struct Lists<'a> {
    rows: &'a mut [[f32; 5]],
    marks: &'a [bool],
    first: &'a [f32],
    second: &'a [f32],
    third: &'a [f32],
}

fn last_choice(routine: u32) -> u32 {
    match routine {
        GUTTER => LAST_ALIGNMENT,
        MAXIMISE | STRETCH => LAST_SPACE,
        _ => 0,
    }
}

fn read_given(text: &mut Text) -> Result<Given, Stop>
    ensures { Onward text.old result text.new }
{
    let routine = text.call(STRETCH)?;
    let choice = text.call(last_choice(routine))?;
    let space = read_float(text)?;
    let mark = text.mark()?;
    let size = read_float(text)?;
    Ok(Given {
        routine,
        choice,
        space,
        mark,
        size,
    })
}

fn read_told(text: &mut Text) -> Result<Told, Stop>
    ensures { Onward text.old result text.new }
{
    let wanted = read_wanted(text)?;
    let result = read_float(text)?;
    let mark = text.mark()?;
    Ok(Told {
        wanted,
        result,
        mark,
    })
}

// A flush has one track, whose infinitely growable mark is the one entry of the marks.
fn is_flush_given(
    given: Given,
    told: Told,
    rows: &[[f32; 5]],
    marks: &[bool],
    after: &[[f32; 5]],
) -> bool {
    let ([row], [mark], [after]) = (rows, marks, after) else {
        return false;
    };
    let track = Track::new(*row, *mark);
    match given.routine {
        FLUSH_BASE => is_base_flushed(told, track, *after),
        _ => is_limit_flushed(told, track, given.mark, *after),
    }
}

fn is_given(given: Given, told: Told, lists: Lists, after: &[[f32; 5]]) -> bool {
    let Lists {
        rows,
        marks,
        first,
        second,
        third,
    } = lists;
    let size = size_of(given.mark, given.size);
    let space = space_of(given.choice, given.space);
    match given.routine {
        GUTTER => is_adjusted(told, alignment_of(given.choice), size, marks, first),
        DISTRIBUTION => is_distributed(told, given.space, rows, marks, first, second, third, after),
        FR => is_fr_size(told, rows, marks, first, given.space),
        MAXIMISE => is_maximised(told, rows, first, space, after),
        STRETCH => is_stretched(told, rows, marks, size, space, after),
        _ => is_flush_given(given, told, rows, marks, after),
    }
}

pub fn check_case(text: &mut Text) -> Result<bool, Stop>
    ensures { Onward text.old result text.new }
{
    let mut rows = [[0.0f32; 5]; MOST_ENTRIES];
    let mut marks = [false; MOST_ENTRIES];
    let mut first = [0.0f32; MOST_ENTRIES];
    let mut second = [0.0f32; MOST_ENTRIES];
    let mut third = [0.0f32; MOST_ENTRIES];
    let mut after = [[0.0f32; 5]; MOST_ENTRIES];
    let given = read_given(text)?;
    let rows = text.list(&mut rows, read_row)?;
    let marks = text.list(&mut marks, Text::mark)?;
    let first = text.list(&mut first, read_float)?;
    let second = text.list(&mut second, read_float)?;
    let third = text.list(&mut third, read_float)?;
    let lists = Lists {
        rows,
        marks,
        first,
        second,
        third,
    };
    let told = read_told(text)?;
    let after = text.list(&mut after, read_row)?;
    Ok(is_given(given, told, lists, after))
}
