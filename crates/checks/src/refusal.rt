// What refuses a board, named by what is wrong with its lowest record at fault, and the paper's number and place of each.
ghost use Rattle.std.specs.Prelude.{◌≡◌};
ghost use Rattle.checks.specs.Answer.{number_of, place_of};

#[derive(Clone, Copy)]
pub enum Refusal {
    // A number is over its limit.
    NumberOver { record: usize },
    // An item spans no track, or one past the last.
    OutsideTracks { record: usize },
    // A measured item lacks a contribution.
    ContributionMissing { record: usize },
    // A measured item has a contribution below an earlier one.
    RowFalls { record: usize },
}

impl Refusal {
    pub fn number(self) -> u32
        ensures { result ≡ number_of self }
    {
        match self {
            Refusal::NumberOver { .. } => 7,
            Refusal::OutsideTracks { .. } => 8,
            Refusal::ContributionMissing { .. } => 9,
            Refusal::RowFalls { .. } => 10,
        }
    }

    pub fn place(self) -> usize
        ensures { result ≡ place_of self }
    {
        match self {
            Refusal::NumberOver { record }
            | Refusal::OutsideTracks { record }
            | Refusal::ContributionMissing { record }
            | Refusal::RowFalls { record } => record,
        }
    }
}
