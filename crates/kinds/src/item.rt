// An item: where it starts, what it spans, and its three contributions in one row.
ghost use Rattle.std.specs.Prelude.{◌≡◌, ◌<◌};
ghost use Rattle.kinds.specs.Kinds.{kind_index, item_of, amount_at, falls};

use crate::amount::{self, is_above};

// The kinds of contribution, in the order of an item's row.
#[derive(Clone, Copy)]
pub enum ContributionKind {
    Minimum,
    MinContent,
    MaxContent,
}

impl ContributionKind {
    // The kind's index in a row of three.
    pub fn index(self) -> usize
        ensures { (result ≡ kind_index self) × (result < 3) }
    {
        self as usize
    }
}

#[derive(Clone, Copy)]
pub struct Item {
    pub start: u16,
    pub span: u16,
    pub row: [Option<u32>; 3],
}

impl Item {
    // The most items of a board.
    pub const MOST: usize = 1_024;
    // The largest contribution.
    pub const MOST_CONTRIBUTION: u32 = 65_535;

    // The item that a row says; one without fault says no other. The row's first number has the start as its lower half and
    // the span as its upper one.
    pub fn of_row(row: [u32; 7]) -> Item
        ensures { result ≡ item_of row }
    {
        let start = (row[0] % 65536) as u16;
        let span = (row[0] / 65536) as u16;
        let row = [
            amount::of(row[1], row[2]),
            amount::of(row[3], row[4]),
            amount::of(row[5], row[6]),
        ];
        Item { start, span, row }
    }

    // The contribution of a kind.
    pub fn amount(self, kind: ContributionKind) -> Option<u32>
        ensures { result ≡ amount_at self kind }
    {
        self.row[kind.index()]
    }

    // A contribution that is given is below an earlier one that is given.
    pub fn falls(self) -> bool
        ensures { result ≡ falls self }
    {
        let minimum = self.amount(ContributionKind::Minimum);
        let min_content = self.amount(ContributionKind::MinContent);
        let max_content = self.amount(ContributionKind::MaxContent);
        is_above(minimum, min_content)
            || is_above(min_content, max_content)
            || is_above(minimum, max_content)
    }
}
