// What refuses a call of a float routine, named by what is wrong, and the paper's number and place of each.
ghost use Rattle.std.specs.Prelude.{◌≡◌};
ghost use Rattle.float_domain.specs.Answer.{number_of, place_of};

#[derive(Clone, Copy)]
pub enum Refusal {
    // The slices differ in length, or are longer than `Track::MOST`.
    Lengths,
    // A gutter adjustment of 3 tracks, or of an even number that is not 0.
    Gutters,
    // The float of this index is outside its domain.
    Outside { index: usize },
}

impl Refusal {
    pub fn number(self) -> u32
        ensures { result ≡ number_of self }
    {
        match self {
            Refusal::Lengths => 12,
            Refusal::Gutters => 14,
            Refusal::Outside { index: _ } => 13,
        }
    }

    pub fn place(self) -> usize
        ensures { result ≡ place_of self }
    {
        match self {
            Refusal::Lengths | Refusal::Gutters => 0,
            Refusal::Outside { index } => index,
        }
    }
}
