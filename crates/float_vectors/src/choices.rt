// The numbers of a case that stand for one of a few: the kind of a space, whether a size is given, an alignment.
// They are the case file's numbers and not C's, and are read here alone, so that no case is read by what it tests.
ghost use Rattle.std.specs.Prelude.{◌≡◌};
ghost use Rattle.float_vectors.specs.Choices.{size_as, space_as, alignment_as};

use floats::{AlignContent, AvailableSpace};

// The numbers run from 0 to the last.
pub const LAST_SPACE: u32 = 2;

pub const LAST_ALIGNMENT: u32 = 9;

pub fn size_of(is_given: bool, size: f32) -> Option<f32>
    ensures { result ≡ size_as is_given size }
{
    is_given.then_some(size)
}

pub fn space_of(number: u32, space: f32) -> AvailableSpace
    ensures { result ≡ space_as number space }
{
    match number {
        0 => AvailableSpace::Definite(space),
        1 => AvailableSpace::MinContent,
        _ => AvailableSpace::MaxContent,
    }
}

// In the Rust's order.
pub fn alignment_of(number: u32) -> AlignContent
    ensures { result ≡ alignment_as number }
{
    match number {
        0 => AlignContent::Normal,
        1 => AlignContent::Start,
        2 => AlignContent::End,
        3 => AlignContent::FlexStart,
        4 => AlignContent::FlexEnd,
        5 => AlignContent::Center,
        6 => AlignContent::Stretch,
        7 => AlignContent::SpaceBetween,
        8 => AlignContent::SpaceEvenly,
        _ => AlignContent::SpaceAround,
    }
}
