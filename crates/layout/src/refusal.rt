// What refuses a layout: too few sizes lent, or a record; with the paper's number and place of each.
ghost use Rattle.std.specs.Prelude.{◌≡◌};
ghost use Rattle.layout.specs.Answer.{number_of, place_of};
ghost use Rattle.layout.specs.declared.refusal.Refusal.TheVariants.{Record};

#[derive(Clone, Copy)]
pub enum Refusal {
    // 6: fewer sizes than tracks.
    LentTooShort,
    // 7 to 10.
    Record(checks::Refusal),
}

// Each of the two hands on what the part says; one match for both would make a pair that no caller wants.
impl Refusal {
    pub fn number(self) -> u32
        ensures { result ≡ number_of self }
    {
        match self {
            Refusal::LentTooShort => 6,
            Refusal::Record(refusal) => refusal.number(),
        }
    }

    pub fn place(self) -> usize
        ensures { result ≡ place_of self }
    {
        match self {
            Refusal::LentTooShort => 0,
            Refusal::Record(refusal) => refusal.place(),
        }
    }
}

impl From<checks::Refusal> for Refusal {
    ghost from_gives = { λ refusal outer. outer ≡ Record refusal };

    fn from(refusal: checks::Refusal) -> Refusal {
        Refusal::Record(refusal)
    }
}
