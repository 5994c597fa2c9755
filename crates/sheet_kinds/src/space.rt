// The space: what it asks of the board, its inner size, whether it stretches, its axis; and its limit.
ghost use Rattle.std.specs.Prelude.{◌≡◌};
ghost use Rattle.sheet_kinds.specs.Kinds.{space_of, space_row};
ghost use Rattle.sheet_kinds.specs.Rule.{expansion};

use crate::axis::Axis;
use kinds::{Constraint, amount};

// A space's numbers in the order of its record: constraint tag and number, inner size tag and number, stretch, axis.
pub type SpaceRow = [u32; 6];

#[derive(Clone, Copy)]
pub struct Space {
    pub constraint: Constraint,
    pub inner: Option<u32>,
    pub stretch: bool,
    pub axis: Axis,
}

impl Space {
    // The most dots of a space.
    pub const MOST: u32 = Constraint::MOST;

    // The space that a row says; one without fault says no other. `of_row` and `row`, and no `From`: `docs/PROMISES.md` names them, with the rule's equations.
    // The stretch mark is a byte of 0 or 1.
    pub fn of_row(row: SpaceRow) -> Space
        ensures { result ≡ space_of row }
    {
        let constraint = Constraint::of(row[0], row[1]);
        let inner = amount::of(row[2], row[3]);
        let stretch = row[4] == 1;
        let axis = Axis::of(row[5]);
        Space {
            constraint,
            inner,
            stretch,
            axis,
        }
    }

    pub fn row(self) -> SpaceRow
        ensures { result ≡ space_row self }
    {
        [
            self.constraint.tag(),
            self.constraint.number(),
            amount::tag(self.inner),
            amount::number(self.inner),
            u32::from(self.stretch),
            self.axis.byte(),
        ]
    }

    // The inner size if given; without it, definite becomes max-content, and in the block axis min-content does too.
    pub fn expansion(self) -> Constraint
        ensures { result ≡ expansion self }
    {
        match (self.inner, self.constraint, self.axis) {
            (Some(n), _, _) => Constraint::Definite(n),
            (None, Constraint::Definite(_), _) => Constraint::MaxContent,
            (None, Constraint::MinContent, Axis::Inline) => Constraint::MinContent,
            (None, Constraint::MinContent, Axis::Block) => Constraint::MaxContent,
            (None, Constraint::MaxContent, _) => Constraint::MaxContent,
        }
    }
}
