// A track as a sheet says it, its minimum and maximum as cases; and the track that the sizing reads of it.
ghost use Rattle.std.specs.Prelude.{◌≡◌};
ghost use Rattle.sheet_kinds.specs.Kinds.{sheet_minimum_of, sheet_maximum_of, sheet_track_of};
ghost use Rattle.sheet_kinds.specs.Rule.{resolved_minimum, resolved_maximum, resolved};

use kinds::{Maximum, Minimum, Track};

// Types of their own, beside those of `kinds`: a sheet gets kinds that the sizing never sees, and the rule's `resolved` (specs/Rule.antt),
// from the one to the other, says how each is sized; the edit auto_resolved_as_min_content stands on it.
#[derive(Clone, Copy)]
pub enum SheetMinimum {
    Fixed(u32),
    Auto,
    MinContent,
    MaxContent,
}

#[derive(Clone, Copy)]
pub enum SheetMaximum {
    Fixed(u32),
    Auto,
    MinContent,
    MaxContent,
    FitContent(u32),
    Fr(u32),
}

impl SheetMinimum {
    // The tags of a sheet: numbers, as a sheet's bytes hold them (`docs/SHEET.md`).
    pub const FIXED: u32 = Minimum::FIXED;

    pub const AUTO: u32 = Minimum::AUTO;

    pub const MIN_CONTENT: u32 = Minimum::MIN_CONTENT;

    pub const MAX_CONTENT: u32 = Minimum::MAX_CONTENT;

    fn of(tag: u32, n: u32) -> SheetMinimum
        ensures { result ≡ sheet_minimum_of tag n }
    {
        match tag {
            Self::FIXED => Self::Fixed(n),
            Self::AUTO => Self::Auto,
            Self::MIN_CONTENT => Self::MinContent,
            _ => Self::MaxContent,
        }
    }
}

impl SheetMaximum {
    // The tags of a sheet: numbers, as a sheet's bytes hold them (`docs/SHEET.md`).
    pub const FIXED: u32 = Maximum::FIXED;

    pub const AUTO: u32 = Maximum::AUTO;

    pub const MIN_CONTENT: u32 = Maximum::MIN_CONTENT;

    pub const MAX_CONTENT: u32 = Maximum::MAX_CONTENT;

    pub const FIT_CONTENT: u32 = Maximum::FIT_CONTENT;

    pub const FR: u32 = Maximum::FR;

    fn of(tag: u32, n: u32) -> SheetMaximum
        ensures { result ≡ sheet_maximum_of tag n }
    {
        match tag {
            Self::FIXED => Self::Fixed(n),
            Self::AUTO => Self::Auto,
            Self::MIN_CONTENT => Self::MinContent,
            Self::MAX_CONTENT => Self::MaxContent,
            Self::FIT_CONTENT => Self::FitContent(n),
            _ => Self::Fr(n),
        }
    }
}

// What the sizing reads of each.
impl From<SheetMinimum> for Minimum {
    ghost from_gives = { λ said sized. sized ≡ resolved_minimum said };

    fn from(said: SheetMinimum) -> Minimum {
        match said {
            SheetMinimum::Fixed(n) => Minimum::Fixed(n),
            SheetMinimum::Auto => Minimum::Auto,
            SheetMinimum::MinContent => Minimum::MinContent,
            SheetMinimum::MaxContent => Minimum::MaxContent,
        }
    }
}

impl From<SheetMaximum> for Maximum {
    ghost from_gives = { λ said sized. sized ≡ resolved_maximum said };

    fn from(said: SheetMaximum) -> Maximum {
        match said {
            SheetMaximum::Fixed(n) => Maximum::Fixed(n),
            SheetMaximum::Auto => Maximum::Auto,
            SheetMaximum::MinContent => Maximum::MinContent,
            SheetMaximum::MaxContent => Maximum::MaxContent,
            SheetMaximum::FitContent(n) => Maximum::FitContent(n),
            SheetMaximum::Fr(n) => Maximum::Fr(n),
        }
    }
}

#[derive(Clone, Copy)]
pub struct SheetTrack {
    pub minimum: SheetMinimum,
    pub maximum: SheetMaximum,
}

impl SheetTrack {
    // The track that a row says; one without fault says no other.
    pub fn of_row(row: [u32; 4]) -> SheetTrack
        ensures { result ≡ sheet_track_of row }
    {
        let minimum = SheetMinimum::of(row[0], row[1]);
        let maximum = SheetMaximum::of(row[2], row[3]);
        SheetTrack { minimum, maximum }
    }

    // The track that the sizing reads.
    pub fn resolved(self) -> Track
        ensures { result ≡ resolved self }
    {
        Track {
            minimum: self.minimum.into(),
            maximum: self.maximum.into(),
        }
    }
}
