// What each tag says of the number beside it.
ghost use Rattle.std.specs.Prelude.{◌≡◌, ◌+◌, ◌≤◌};
ghost use Rattle.laws.specs.Lists.{among};
ghost use Rattle.records.specs.Rule.{constraint_tags, given_tags, minimum_tags, maximum_tags, stretch_bytes, axis_bytes, unless, fault};
ghost use Rattle.records.specs.Answer.{fault_of, last_place, use_of, use_fault};

use crate::refusal::{Refusal, unless};
use kinds::{Constraint, amount};
use sheet_kinds::{Axis, SheetMaximum, SheetMinimum};

// A tag has a number of use beside it, one of none, or is not listed: three cases, which no Option says.
#[derive(Clone, Copy)]
pub enum Use {
    Carries,
    Bare,
    Unlisted,
}

#[tactic(auto, unfolding(laws::specs::Lists::among))]
pub fn constraint(tag: u32) -> Use
    ensures { result ≡ use_of constraint_tags tag }
{
    match tag {
        Constraint::DEFINITE => Use::Carries,
        Constraint::MIN_CONTENT | Constraint::MAX_CONTENT => Use::Bare,
        _ => Use::Unlisted,
    }
}

#[tactic(auto, unfolding(laws::specs::Lists::among))]
pub fn given(tag: u32) -> Use
    ensures { result ≡ use_of given_tags tag }
{
    match tag {
        amount::GIVEN => Use::Carries,
        amount::ABSENT => Use::Bare,
        _ => Use::Unlisted,
    }
}

#[tactic(auto, unfolding(laws::specs::Lists::among))]
pub fn minimum(tag: u32) -> Use
    ensures { result ≡ use_of minimum_tags tag }
{
    match tag {
        SheetMinimum::FIXED => Use::Carries,
        SheetMinimum::AUTO | SheetMinimum::MIN_CONTENT | SheetMinimum::MAX_CONTENT => Use::Bare,
        _ => Use::Unlisted,
    }
}

#[tactic(auto, unfolding(laws::specs::Lists::among))]
pub fn maximum(tag: u32) -> Use
    ensures { result ≡ use_of maximum_tags tag }
{
    match tag {
        SheetMaximum::FIXED | SheetMaximum::FIT_CONTENT | SheetMaximum::FR => Use::Carries,
        SheetMaximum::AUTO | SheetMaximum::MIN_CONTENT | SheetMaximum::MAX_CONTENT => Use::Bare,
        _ => Use::Unlisted,
    }
}

impl Use {
    // What is wrong with a tag at a place and the number beside it.
    pub fn fault(self, n: u32, at: usize) -> Result<(), Refusal>
        requires { at + 1 ≤ last_place }
        ensures { fault_of result ≡ use_fault self n at }
    {
        match self {
            Use::Carries => Ok(()),
            Use::Bare => unless(n == 0, Refusal::StrayNumber { at: at + 1 }),
            Use::Unlisted => Err(Refusal::Tag { at }),
        }
    }
}

// What is wrong with a stretch byte. Stretch and axis are two functions, since the rule lists the bytes of each by itself.
pub fn stretch_fault(byte: u32, at: usize) -> Result<(), Refusal>
    ensures { fault_of result ≡ unless (among stretch_bytes byte) (fault 4 at) }
{
    unless(byte < 2, Refusal::Tag { at })
}

// What is wrong with an axis byte.
pub fn axis_fault(byte: u32, at: usize) -> Result<(), Refusal>
    ensures { fault_of result ≡ unless (among axis_bytes byte) (fault 4 at) }
{
    unless(byte <= Axis::BLOCK, Refusal::Tag { at })
}
