// What an item spans, and what it lacks: a measured item spans a track that is not fixed at both ends (specs/Rule.antt is the rule). A look at what is
// spanned takes the span's tracks and no more; a span is cut to the tracks that there are, so it asks nothing of its caller.
#![tactic(auto)]

ghost use Rattle.std.specs.Prelude.{◌≡◌, map};
ghost use Rattle.kinds.specs.Kinds.{track_of};
ghost use Rattle.spanned.specs.Rule.{is_fixed, is_fr, spanned, is_measured, crosses_fr, lacks_contribution};

use kinds::{ContributionKind, Item, Maximum, Minimum, Track};

fn is_fixed(track: Track) -> bool
    ensures { result ≡ is_fixed track }
{
    matches!(track.minimum, Minimum::Fixed(_)) && matches!(track.maximum, Maximum::Fixed(_))
}

pub fn is_fr(track: Track) -> bool
    ensures { result ≡ is_fr track }
{
    matches!(track.maximum, Maximum::Fr(_))
}

// The rows of the tracks that an item spans.
fn spanned(tracks: &[[u32; 4]], item: Item) -> &[[u32; 4]]
    ensures { result.now ≡ spanned item tracks.now }
{
    let end = (item.start as usize + item.span as usize).min(tracks.len());
    let start = (item.start as usize).min(end);
    &tracks[start..end]
}

pub fn is_measured(tracks: &[[u32; 4]], item: Item) -> bool
    ensures { result ≡ is_measured (map track_of tracks.now) item }
{
    spanned(tracks, item)
        .iter()
        .any(|row| !is_fixed(Track::of_row(*row)))
}

pub fn crosses_fr(tracks: &[[u32; 4]], item: Item) -> bool
    ensures { result ≡ crosses_fr (map track_of tracks.now) item }
{
    spanned(tracks, item)
        .iter()
        .any(|row| is_fr(Track::of_row(*row)))
}

// One of an item's three contributions is absent.
#[tactic(auto, unfolding(laws::specs::Lists::some))]
pub fn lacks_contribution(item: Item) -> bool
    ensures { result ≡ lacks_contribution item }
{
    item.amount(ContributionKind::Minimum).is_none()
        || item.amount(ContributionKind::MinContent).is_none()
        || item.amount(ContributionKind::MaxContent).is_none()
}
