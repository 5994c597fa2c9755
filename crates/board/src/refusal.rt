// What refuses a board: the sheet, or the layout of what it says; with the paper's number and place of each.
ghost use Rattle.std.specs.Prelude.{◌≡◌};
ghost use Rattle.board.specs.Answer.{number_of, place_of};
ghost use Rattle.board.specs.declared.refusal.Refusal.TheVariants.{Sheet, Layout};

#[derive(Clone, Copy)]
pub enum Refusal {
    // 1 to 5.
    Sheet(sheet::Refusal),
    // 6 to 10.
    Layout(layout::Refusal),
}

// Each of the two hands on what the part says; one match for both would make a pair that no caller wants.
impl Refusal {
    pub fn number(self) -> u32
        ensures { result ≡ number_of self }
    {
        match self {
            Refusal::Sheet(refusal) => refusal.number(),
            Refusal::Layout(refusal) => refusal.number(),
        }
    }

    pub fn place(self) -> usize
        ensures { result ≡ place_of self }
    {
        match self {
            Refusal::Sheet(refusal) => refusal.place(),
            Refusal::Layout(refusal) => refusal.place(),
        }
    }
}

impl From<sheet::Refusal> for Refusal {
    ghost from_gives = { λ refusal outer. outer ≡ Sheet refusal };

    fn from(refusal: sheet::Refusal) -> Refusal {
        Refusal::Sheet(refusal)
    }
}

impl From<layout::Refusal> for Refusal {
    ghost from_gives = { λ refusal outer. outer ≡ Layout refusal };

    fn from(refusal: layout::Refusal) -> Refusal {
        Refusal::Layout(refusal)
    }
}
