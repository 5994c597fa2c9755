// The records of a board at fault: refusals 7 to 10, on rows (specs/Rule.antt is the rule). The space is record 0, track t is 1 + t,
// item i is 1 + tracks + i. Tracks and items are two slices, as `docs/PROMISES.md` has them in `record_fault`.
#![tactic(auto)]

mod over;
mod refusal;

ghost use Rattle.std.specs.Prelude.{◌≡◌, map};
ghost use Rattle.kinds.specs.Kinds.{track_of, item_of};
ghost use Rattle.sheet_kinds.specs.Kinds.{sheet_track_of};
ghost use Rattle.checks.specs.Rule.{is_outside, is_lacking, is_falling, over_fault, item_checks, first_of, record_fault};
ghost use Rattle.checks.specs.Answer.{fault_of};

use kinds::Item;
use over::{item_over, space_over, track_over};
pub use refusal::Refusal;
use sheet_kinds::{SheetTrack, Space};
use spanned::{is_measured, lacks_contribution};

// The first of the checks to find a record at fault, by number; and of its records the lowest.
#[tactic(auto, using(crate::proofs::CheckRow::row), unfolding(crate::specs::Rule::record_fault, crate::specs::Rule::first_of))]
pub fn record_fault(space: Space, tracks: &[[u32; 4]], items: &[[u32; 7]]) -> Result<(), Refusal>
    ensures { fault_of result ≡ record_fault space (map sheet_track_of tracks.now) (map item_of items.now) }
{
    over_fault(space, tracks, items)?;
    item_fault(tracks, items)
}

// 7 of any record.
pub fn over_fault(space: Space, tracks: &[[u32; 4]], items: &[[u32; 7]]) -> Result<(), Refusal>
    ensures { fault_of result ≡ over_fault space (map sheet_track_of tracks.now) (map item_of items.now) }
{
    if space_over(space) {
        return Err(Refusal::NumberOver { record: 0 });
    }
    if let Some(t) = tracks
        .iter()
        .position(|row| track_over(SheetTrack::of_row(*row)))
    {
        return Err(Refusal::NumberOver { record: 1 + t });
    }
    if let Some(i) = items.iter().position(|row| item_over(Item::of_row(*row))) {
        return Err(Refusal::NumberOver {
            record: 1 + tracks.len() + i,
        });
    }
    Ok(())
}

// 8 to 10 of the items, on the tracks that the sizing reads: a row says these too. The cheap half of a test comes first.
pub fn item_fault(tracks: &[[u32; 4]], items: &[[u32; 7]]) -> Result<(), Refusal>
    ensures { fault_of result ≡ first_of (item_checks (map track_of tracks.now) (map item_of items.now)) }
{
    let first_item = 1 + tracks.len();
    if let Some(i) = items
        .iter()
        .position(|row| is_outside(Item::of_row(*row), tracks.len()))
    {
        return Err(Refusal::OutsideTracks {
            record: first_item + i,
        });
    }
    // Every item is on tracks that are there.
    if let Some(i) = items
        .iter()
        .position(|row| is_lacking(tracks, Item::of_row(*row)))
    {
        return Err(Refusal::ContributionMissing {
            record: first_item + i,
        });
    }
    if let Some(i) = items
        .iter()
        .position(|row| is_falling(tracks, Item::of_row(*row)))
    {
        return Err(Refusal::RowFalls {
            record: first_item + i,
        });
    }
    Ok(())
}

// 8: span 0, or past the last of so many tracks.
fn is_outside(item: Item, tracks: usize) -> bool
    ensures { result ≡ is_outside tracks item }
{
    item.span == 0 || item.start as usize + item.span as usize > tracks
}

// 9
fn is_lacking(tracks: &[[u32; 4]], item: Item) -> bool
    ensures { result ≡ is_lacking (map track_of tracks.now) item }
{
    lacks_contribution(item) && is_measured(tracks, item)
}

// 10
fn is_falling(tracks: &[[u32; 4]], item: Item) -> bool
    ensures { result ≡ is_falling (map track_of tracks.now) item }
{
    item.falls() && is_measured(tracks, item)
}
