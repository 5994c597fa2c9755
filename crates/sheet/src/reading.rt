// Reading: a sheet's bytes to the space and to lent rows. No row is written before every refusal has been ruled out.
#![tactic(auto, unfolding(records::specs::Rule::record_size))]

ghost use Rattle.std.specs.Prelude.{◌≡◌, ◌+◌, ◌*◌, ◌≤◌, length, map};
ghost use Rattle.records.specs.Answer.{fault_of};
ghost use Rattle.sheet.specs.Rule.{record_size, rows_at, sheet_from, sheet_fault, first, read_sheet, read_call};
ghost use Rattle.sheet.specs.Answer.{enough_rows, read_leaves, Loadable};

use crate::sections::{self, COUNT_SIZE, SPACE_AT, TRACKS_AT};
use records::numbers::two_at;
use records::{Refusal, unless};
use rows::{ItemRow, RecordRow, TrackRow};
use sheet_kinds::{Space, SpaceRow};

// What a sheet says: its space, and how many tracks and items it has.
#[derive(Clone, Copy)]
pub struct Contents {
    pub space: Space,
    pub tracks: usize,
    pub items: usize,
}

// Reads a sheet into lent rows. A refusal leaves every row as it is; rows past the counts always keep what they hold.
#[tactic(auto, using(crate::proofs::ReadCall::readable), unfolding(crate::specs::Rule::read_call))]
pub fn read(
    bytes: &[u8],
    tracks: &mut [TrackRow],
    items: &mut [ItemRow],
) -> Result<Contents, Refusal>
    ensures { read_leaves result tracks.new items.new ≡ read_call bytes.now tracks.old items.old }
{
    read_fault(bytes, tracks.len(), items.len())?;
    Ok(load_from(bytes, 0, tracks, items))
}

// 1 to 5, then 6.
#[tactic(auto, using(crate::proofs::Accepted::accepted), unfolding(records::specs::Rule::record_size))]
fn read_fault(bytes: &[u8], tracks: usize, items: usize) -> Result<(), Refusal>
    ensures { fault_of result ≡ first (sheet_fault bytes.now) (enough_rows bytes.now tracks items) }
{
    sections::sheet_fault(bytes)?;
    let items_at = sections::items_from(bytes, 0);
    let track_count = two_at(bytes, TRACKS_AT) as usize;
    let item_count = two_at(bytes, items_at) as usize;
    unless(track_count <= tracks, Refusal::LentTooShort)?;
    unless(item_count <= items, Refusal::LentTooShort)
}

// Reads a sheet that begins at `at` and has no fault there into rows that are enough for it.
pub(crate) fn load_from(
    bytes: &[u8],
    at: usize,
    tracks: &mut [TrackRow],
    items: &mut [ItemRow],
) -> Contents
    requires { Loadable bytes.now at tracks.old items.old }
    ensures { read_leaves (Ok result) tracks.new items.new ≡ read_sheet (sheet_from bytes.now at) tracks.old items.old }
{
    let tracks_at = sections::tracks_from(at);
    let items_at = sections::items_from(bytes, at);
    let track_count = two_at(bytes, tracks_at) as usize;
    let item_count = two_at(bytes, items_at) as usize;
    read_rows(bytes, tracks_at + COUNT_SIZE, &mut tracks[..track_count]);
    read_rows(bytes, items_at + COUNT_SIZE, &mut items[..item_count]);
    Contents {
        space: Space::of_row(SpaceRow::read(bytes, at + SPACE_AT)),
        tracks: track_count,
        items: item_count,
    }
}

fn read_rows<R: RecordRow>(bytes: &[u8], from: usize, rows: &mut [R])
    requires { from + length rows.old * record_size R.parts ≤ length bytes.now }
    ensures { map R.numbers rows.new ≡ rows_at R.parts bytes.now (length rows.old) from }
{
    // The place goes along with the rows: a product for each would have to be bounded.
    let mut at = from;
    for row in rows.iter_mut() {
        *row = R::read(bytes, at);
        at += R::SIZE;
    }
}
