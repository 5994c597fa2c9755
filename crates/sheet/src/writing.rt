// Writing: the space and rows to lent bytes. No byte is written before every refusal has been ruled out.
#![tactic(auto, unfolding(records::specs::Rule::record_size))]

ghost use Rattle.std.specs.Prelude.{◌≡◌, true, ◌+◌, ◌*◌, ◌≤◌, ◌<◌, length, map};
ghost use Rattle.laws.specs.Put.{put};
ghost use Rattle.rounds.specs.Rule.{most_tracks};
ghost use Rattle.records.specs.Answer.{fault_of, last_place};
ghost use Rattle.rows.specs.Shapes.{width};
ghost use Rattle.sheet.specs.Rule.{record_size, rows_bytes, most_items, sheet_bytes, fine, first, enough, onto, write_call};
ghost use Rattle.sheet.specs.Answer.{sheet_of, write_leaves, section_of};
ghost use Rattle.sheet.specs.Content.{rows_fault, section_rows_fault, content_fault, items_after, sheet_size, section_bytes, LookedAt, SectionLooked, Looked, Writable};

use crate::sections::{COUNT_SIZE, SPACE_AT, SectionRow, TRACKS_AT};
use records::numbers::put_two;
use records::{Refusal, unless};
use rows::{ItemRow, RecordRow, TrackRow};
use sheet_kinds::Space;

// Writes a sheet into lent bytes and tells its length. A refusal leaves every byte as it is; bytes past the sheet always keep what
// they hold.
#[tactic(auto, using(crate::proofs::WriteCall::cases), unfolding(records::specs::Rule::record_size))]
pub fn write(
    space: Space,
    tracks: &[TrackRow],
    items: &[ItemRow],
    bytes: &mut [u8],
) -> Result<usize, Refusal>
    ensures { write_leaves result bytes.new ≡ write_call (sheet_of space tracks.now items.now) bytes.old }
{
    write_fault(tracks, items, bytes.len())?;
    put_sheet(space, tracks, items, bytes);
    Ok(sheet_size(tracks.len(), items.len()))
}

// 3 to 5 where the bytes would show them, then 6. A space has no fault: what is wrong in its bytes cannot be said by its type.
fn write_fault(tracks: &[TrackRow], items: &[ItemRow], lent: usize) -> Result<(), Refusal>
    ensures { (fault_of result ≡ first (content_fault tracks.now items.now) (enough (sheet_size (length tracks.now) (length items.now)) lent))
        × Looked tracks.now items.now }
{
    content_fault(tracks, items)?;
    unless(
        sheet_size(tracks.len(), items.len()) <= lent,
        Refusal::LentTooShort,
    )
}

#[tactic(auto, unfolding(records::specs::Rule::record_size, rows::specs::Shapes::width))]
fn content_fault(tracks: &[TrackRow], items: &[ItemRow]) -> Result<(), Refusal>
    ensures { (fault_of result ≡ content_fault tracks.now items.now) × Looked tracks.now items.now }
{
    section_rows_fault(tracks, TRACKS_AT)?;
    section_rows_fault(items, items_after(tracks.len()))
}

// What is wrong with the rows of a section whose count is to stand at a place.
fn section_rows_fault<R: SectionRow>(rows: &[R], at: usize) -> Result<(), Refusal>
    requires { R.allowed (length rows.now) ≡ true → at + 2 + length rows.now * record_size R.parts ≤ last_place }
    ensures { (fault_of result ≡ section_rows_fault (section_of R.allowed R.parts) (map R.numbers rows.now) at)
        × SectionLooked (width R.parts) (section_of R.allowed R.parts) (map R.numbers rows.now) at }
{
    unless(R::allows(rows.len()), Refusal::Count { at })?;
    rows_fault(rows, at + COUNT_SIZE)
}

fn rows_fault<R: RecordRow>(rows: &[R], from: usize) -> Result<(), Refusal>
    requires { from + length rows.now * record_size R.parts ≤ last_place }
    ensures { (fault_of result ≡ rows_fault R.parts (map R.numbers rows.now) from) × LookedAt (width R.parts) R.parts (map R.numbers rows.now) from }
{
    // The place goes along with the rows: a product for each would have to be bounded.
    let mut at = from;
    for row in rows {
        row.fault(at)?;
        at += R::SIZE;
    }
    Ok(())
}

// Where the count of the items stands behind so many tracks.
fn items_after(tracks: usize) -> usize
    requires { tracks ≤ most_tracks }
    ensures { result ≡ items_after tracks }
{
    TRACKS_AT + COUNT_SIZE + tracks * TrackRow::SIZE
}

fn sheet_size(tracks: usize, items: usize) -> usize
    requires { (tracks ≤ most_tracks) × (items ≤ most_items) }
    ensures { result ≡ sheet_size tracks items }
{
    items_after(tracks) + COUNT_SIZE + items * ItemRow::SIZE
}

#[tactic(auto, using(crate::proofs::SheetPut::parts), unfolding(records::specs::Rule::record_size))]
fn put_sheet(space: Space, tracks: &[TrackRow], items: &[ItemRow], bytes: &mut [u8])
    requires { Writable tracks.now items.now bytes.old }
    ensures { bytes.new ≡ onto (sheet_bytes (sheet_of space tracks.now items.now)) bytes.old }
{
    put_two(1, bytes, 0);
    space.row().put(bytes, SPACE_AT);
    put_section(tracks, bytes, TRACKS_AT);
    put_section(items, bytes, items_after(tracks.len()));
}

fn put_section<R: RecordRow>(rows: &[R], bytes: &mut [u8], at: usize)
    requires { (length rows.now < 65536)
        × (rows_fault R.parts (map R.numbers rows.now) (at + 2) ≡ fine)
        × (at + 2 + length rows.now * record_size R.parts ≤ length bytes.old) }
    ensures { bytes.new ≡ put at (section_bytes R.parts (map R.numbers rows.now)) bytes.old }
{
    put_two(rows.len() as u32, bytes, at);
    put_rows(rows, bytes, at + COUNT_SIZE);
}

fn put_rows<R: RecordRow>(rows: &[R], bytes: &mut [u8], from: usize)
    requires { (rows_fault R.parts (map R.numbers rows.now) from ≡ fine) × (from + length rows.now * record_size R.parts ≤ length bytes.old) }
    ensures { bytes.new ≡ put from (rows_bytes R.parts (map R.numbers rows.now)) bytes.old }
{
    // The place goes along with the rows: a product for each would have to be bounded.
    let mut at = from;
    for row in rows {
        row.put(bytes, at);
        at += R::SIZE;
    }
}
