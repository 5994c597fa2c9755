// An item at work: what it spans, and its three contributions in one row, all of them given. One that lacks a contribution takes no part;
// refusal 9 has met it before. A type of its own beside `Item`, as the rule has it: what takes part is `complete`, and says so by its type.
ghost use Rattle.std.specs.Prelude.{◌≡◌, false};
ghost use Rattle.spanned.specs.Rule.{lacks_contribution};
ghost use Rattle.lines.specs.Rule.{complete, contribution_at};
ghost use Rattle.lines.specs.Parts.{given, measured_of};

use kinds::{ContributionKind, Item, amount};

#[derive(Clone, Copy)]
pub struct Measured {
    pub start: u16,
    pub span: u16,
    pub row: [u32; 3],
}

impl Measured {
    // The item at work. Only of one that lacks no contribution: an absent one is no number.
    pub fn of(item: Item) -> Measured
        requires { lacks_contribution item ≡ false }
        ensures { result ≡ measured_of item }
    {
        let minimum = item.amount(ContributionKind::Minimum);
        let min_content = item.amount(ContributionKind::MinContent);
        let max_content = item.amount(ContributionKind::MaxContent);
        Measured {
            start: item.start,
            span: item.span,
            row: [
                amount::number(minimum),
                amount::number(min_content),
                amount::number(max_content),
            ],
        }
    }

    // The same of any item, or none where it lacks a contribution.
    pub fn complete(item: Item) -> Option<Measured>
        ensures { given result ≡ complete item }
    {
        let minimum = item.amount(ContributionKind::Minimum)?;
        let min_content = item.amount(ContributionKind::MinContent)?;
        let max_content = item.amount(ContributionKind::MaxContent)?;
        Some(Measured {
            start: item.start,
            span: item.span,
            row: [minimum, min_content, max_content],
        })
    }

    // The contribution of a kind.
    pub fn at(self, kind: ContributionKind) -> u32
        ensures { result ≡ contribution_at self kind }
    {
        self.row[kind.index()]
    }
}
