// 7: numbers over their limit. Each number that is given counts, also that of an item which is not measured.
ghost use Rattle.std.specs.Prelude.{◌≡◌};
ghost use Rattle.checks.specs.Rule.{amount_over, constraint_over, minimum_over, maximum_over, space_over, track_over, item_over};

use kinds::{Constraint, ContributionKind, Item, Maximum, Minimum, Track};
use sheet_kinds::{SheetTrack, Space};

fn amount_over(amount: Option<u32>, most: u32) -> bool
    ensures { result ≡ amount_over most amount }
{
    matches!(amount, Some(n) if n > most)
}

fn constraint_over(constraint: Constraint) -> bool
    ensures { result ≡ constraint_over constraint }
{
    matches!(constraint, Constraint::Definite(n) if n > Constraint::MOST)
}

fn minimum_over(minimum: Minimum) -> bool
    ensures { result ≡ minimum_over minimum }
{
    matches!(minimum, Minimum::Fixed(n) if n > Track::MOST_SIZE)
}

fn maximum_over(maximum: Maximum) -> bool
    ensures { result ≡ maximum_over maximum }
{
    match maximum {
        Maximum::Fixed(n) | Maximum::FitContent(n) => n > Track::MOST_SIZE,
        Maximum::Fr(n) => n > Track::MOST_FACTOR,
        _ => false,
    }
}

pub(crate) fn space_over(space: Space) -> bool
    ensures { result ≡ space_over space }
{
    constraint_over(space.constraint) || amount_over(space.inner, Space::MOST)
}

// The numbers of a track, as the sizing reads them.
pub(crate) fn track_over(track: SheetTrack) -> bool
    ensures { result ≡ track_over track }
{
    let resolved = track.resolved();
    minimum_over(resolved.minimum) || maximum_over(resolved.maximum)
}

pub(crate) fn item_over(item: Item) -> bool
    ensures { result ≡ item_over item }
{
    [
        ContributionKind::Minimum,
        ContributionKind::MinContent,
        ContributionKind::MaxContent,
    ]
    .iter()
    .any(|kind| amount_over(item.amount(*kind), Item::MOST_CONTRIBUTION))
}
