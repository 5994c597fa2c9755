// C's numbers in the words of the core: the kind of a space, a size that may be absent, an alignment. A number that is not listed is none of them.
// They are numbers because the C interface hands numbers; the case files have a reading of their own, so that no case is read by what it tests.
ghost use Rattle.std.specs.Prelude.{◌≡◌};
ghost use Rattle.torrivask.specs.Words.{space_as, size_as, alignment_as};

use floats::{AlignContent, AvailableSpace};

// 1 is definite, 2 min-content, 3 max-content. The size is read where the space is definite.
pub(crate) fn space_of(kind: u32, size: f32) -> Option<AvailableSpace>
    ensures { result ≡ space_as kind size }
{
    match kind {
        1 => Some(AvailableSpace::Definite(size)),
        2 => Some(AvailableSpace::MinContent),
        3 => Some(AvailableSpace::MaxContent),
        _ => None,
    }
}

// The size is read where it is given.
pub(crate) fn size_of(given: bool, size: f32) -> Option<f32>
    ensures { result ≡ size_as given size }
{
    given.then_some(size)
}

// The keywords by their place in the Rust's order, from 0.
pub(crate) fn alignment_of(word: u32) -> Option<AlignContent>
    ensures { result ≡ alignment_as word }
{
    match word {
        0 => Some(AlignContent::Normal),
        1 => Some(AlignContent::Start),
        2 => Some(AlignContent::End),
        3 => Some(AlignContent::FlexStart),
        4 => Some(AlignContent::FlexEnd),
        5 => Some(AlignContent::Center),
        6 => Some(AlignContent::Stretch),
        7 => Some(AlignContent::SpaceBetween),
        8 => Some(AlignContent::SpaceEvenly),
        9 => Some(AlignContent::SpaceAround),
        _ => None,
    }
}
