// What refuses a sheet, named by what is wrong, and the paper's number and place of each.
ghost use Rattle.std.specs.Prelude.{◌≡◌};
ghost use Rattle.records.specs.Rule.{unless};
ghost use Rattle.records.specs.Answer.{number_of, place_of, fault_of, refusal_fault};

#[derive(Clone, Copy)]
pub enum Refusal {
    // A count or a record is not wholly there: the sheet's length.
    Short { length: usize },
    // Bytes follow the items: the first of them.
    BytesOver { at: usize },
    // A count that is not allowed: its first byte.
    Count { at: usize },
    // A tag, a stretch byte or an axis byte that is not listed.
    Tag { at: usize },
    // A number without use that is not zero: its first byte.
    StrayNumber { at: usize },
    // The lent rows or bytes are too few.
    LentTooShort,
}

impl Refusal {
    pub fn number(self) -> u32
        ensures { result ≡ number_of self }
    {
        match self {
            Refusal::Short { .. } => 1,
            Refusal::BytesOver { .. } => 2,
            Refusal::Count { .. } => 3,
            Refusal::Tag { .. } => 4,
            Refusal::StrayNumber { .. } => 5,
            Refusal::LentTooShort => 6,
        }
    }

    pub fn place(self) -> usize
        ensures { result ≡ place_of self }
    {
        match self {
            Refusal::Short { length } => length,
            Refusal::BytesOver { at }
            | Refusal::Count { at }
            | Refusal::Tag { at }
            | Refusal::StrayNumber { at } => at,
            Refusal::LentTooShort => 0,
        }
    }
}

// A refusal, unless what it refuses does not hold.
pub fn unless(holds: bool, refusal: Refusal) -> Result<(), Refusal>
    ensures { fault_of result ≡ unless holds (refusal_fault refusal) }
{
    if holds { Ok(()) } else { Err(refusal) }
}
