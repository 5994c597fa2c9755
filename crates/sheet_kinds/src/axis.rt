// The axis that a sheet's tracks lie along: columns along the inline axis, rows along the block axis.
ghost use Rattle.std.specs.Prelude.{◌≡◌};
ghost use Rattle.sheet_kinds.specs.Kinds.{axis_of, axis_byte};

#[derive(Clone, Copy)]
pub enum Axis {
    Inline,
    Block,
}

impl Axis {
    // Numbers, as a sheet's bytes hold them (`docs/SHEET.md`).
    pub const INLINE: u32 = 0;

    pub const BLOCK: u32 = 1;

    pub fn of(byte: u32) -> Axis
        ensures { result ≡ axis_of byte }
    {
        match byte {
            Self::BLOCK => Self::Block,
            _ => Self::Inline,
        }
    }

    pub fn byte(self) -> u32
        ensures { result ≡ axis_byte self }
    {
        match self {
            Axis::Inline => Axis::INLINE,
            Axis::Block => Axis::BLOCK,
        }
    }
}
