// What refuses a call on edges, named by what is wrong, with the number and place of each.
ghost use Rattle.std.specs.Prelude.{◌≡◌};
ghost use Rattle.edges.specs.Answer.{number_of, place_of};

#[derive(Clone, Copy)]
pub enum Refusal {
    // Fewer edges are lent than there are tracks and one.
    LentTooShort,
    // This track's base, or the sum up to it, is over its limit.
    OverLimit { track: usize },
    // The list has no entry, starts above 0, or falls, at this entry.
    Unsorted { entry: usize },
    // The list has no such track.
    TrackMissing { track: usize },
}

impl Refusal {
    pub fn number(self) -> u32
        ensures { result ≡ number_of self }
    {
        match self {
            Refusal::LentTooShort => 6,
            Refusal::OverLimit { .. } => 7,
            Refusal::Unsorted { .. } => 15,
            Refusal::TrackMissing { .. } => 24,
        }
    }

    pub fn place(self) -> usize
        ensures { result ≡ place_of self }
    {
        match self {
            Refusal::LentTooShort => 0,
            Refusal::OverLimit { track } | Refusal::TrackMissing { track } => track,
            Refusal::Unsorted { entry } => entry,
        }
    }
}
