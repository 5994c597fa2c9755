// What the space asks of the board, and the limit of a space.
ghost use Rattle.std.specs.Prelude.{◌≡◌};
ghost use Rattle.kinds.specs.Kinds.{constraint_of, constraint_tag, constraint_number};

#[derive(Clone, Copy)]
pub enum Constraint {
    Definite(u32),
    MinContent,
    MaxContent,
}

impl Constraint {
    // The most dots of a space.
    pub const MOST: u32 = 16_777_215;
    // The tags of a sheet: numbers, as a sheet's bytes hold them (`docs/SHEET.md`).
    pub const DEFINITE: u32 = 1;

    pub const MIN_CONTENT: u32 = 2;

    pub const MAX_CONTENT: u32 = 3;

    pub fn of(tag: u32, n: u32) -> Constraint
        ensures { result ≡ constraint_of tag n }
    {
        match tag {
            Self::DEFINITE => Self::Definite(n),
            Self::MIN_CONTENT => Self::MinContent,
            _ => Self::MaxContent,
        }
    }

    pub fn tag(self) -> u32
        ensures { result ≡ constraint_tag self }
    {
        match self {
            Constraint::Definite(_) => Constraint::DEFINITE,
            Constraint::MinContent => Constraint::MIN_CONTENT,
            Constraint::MaxContent => Constraint::MAX_CONTENT,
        }
    }

    pub fn number(self) -> u32
        ensures { result ≡ constraint_number self }
    {
        match self {
            Constraint::Definite(n) => n,
            Constraint::MinContent | Constraint::MaxContent => 0,
        }
    }
}
