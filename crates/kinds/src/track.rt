// A track: its minimum and maximum as cases, and the limits that bound them.
ghost use Rattle.std.specs.Prelude.{◌≡◌};
ghost use Rattle.kinds.specs.Kinds.{minimum_of, maximum_of, track_of};

#[derive(Clone, Copy)]
pub enum Minimum {
    Fixed(u32),
    Auto,
    MinContent,
    MaxContent,
}

#[derive(Clone, Copy)]
pub enum Maximum {
    Fixed(u32),
    Auto,
    MinContent,
    MaxContent,
    FitContent(u32),
    Fr(u32),
}

impl Minimum {
    // The tags of a sheet: numbers, as a sheet's bytes hold them (`docs/SHEET.md`).
    pub const FIXED: u32 = 1;

    pub const AUTO: u32 = 2;

    pub const MIN_CONTENT: u32 = 3;

    pub const MAX_CONTENT: u32 = 4;

    fn of(tag: u32, n: u32) -> Minimum
        ensures { result ≡ minimum_of tag n }
    {
        match tag {
            Self::FIXED => Self::Fixed(n),
            Self::AUTO => Self::Auto,
            Self::MIN_CONTENT => Self::MinContent,
            _ => Self::MaxContent,
        }
    }
}

impl Maximum {
    // The tags of a sheet: numbers, as a sheet's bytes hold them (`docs/SHEET.md`).
    pub const FIXED: u32 = 1;

    pub const AUTO: u32 = 2;

    pub const MIN_CONTENT: u32 = 3;

    pub const MAX_CONTENT: u32 = 4;

    pub const FIT_CONTENT: u32 = 5;

    pub const FR: u32 = 6;

    fn of(tag: u32, n: u32) -> Maximum
        ensures { result ≡ maximum_of tag n }
    {
        match tag {
            Self::FIXED => Self::Fixed(n),
            Self::AUTO => Self::Auto,
            Self::MIN_CONTENT => Self::MinContent,
            Self::MAX_CONTENT => Self::MaxContent,
            Self::FIT_CONTENT => Self::FitContent(n),
            _ => Self::Fr(n),
        }
    }
}

#[derive(Clone, Copy)]
pub struct Track {
    pub minimum: Minimum,
    pub maximum: Maximum,
}

impl Track {
    // The most tracks of a board.
    pub const MOST: usize = 256;
    // The largest fixed size and fit-content argument.
    pub const MOST_SIZE: u32 = 65_535;
    // The largest flex factor, in thousandths.
    pub const MOST_FACTOR: u32 = 100_000;

    // The track that a row says; one without fault says no other. `of_row`, and no `From`: `docs/PROMISES.md` names it.
    pub fn of_row(row: [u32; 4]) -> Track
        ensures { result ≡ track_of row }
    {
        let minimum = Minimum::of(row[0], row[1]);
        let maximum = Maximum::of(row[2], row[3]);
        Track { minimum, maximum }
    }
}
