// The sections of a sheet, front to back: what is wrong with each, and where each stands. A sheet begins at a place of a run of bytes, and
// every place that is told is one of the run. Bytes and place stay two arguments: the promises of `fault_from` and `end_from` name both.
#![tactic(auto, unfolding(records::specs::Rule::record_size))]

ghost use Rattle.std.specs.Prelude.{◌≡◌, ℕ, ◌+◌, ◌≤◌, Bool, leb, length};
ghost use Rattle.records.specs.Answer.{fault_of, last_place};
ghost use Rattle.sheet.specs.Rule.{record_size, row_at, row_fault, records_fault, first, whole_to, space_section, track_section, item_section, count_fault, section_fault, tracks_from, items_from, end_from, fault_from, counts_fault_from, over_fault, sheet_fault};
ghost use Rattle.sheet.specs.Answer.{section_of};
ghost use Rattle.sheet.specs.Few.{says_few};

use kinds::{Item, Track};
use records::numbers::two_at;
use records::{Refusal, unless};
use rows::{ItemRow, RecordRow, TrackRow};
use sheet_kinds::SpaceRow;

// The bytes of a count.
pub(crate) const COUNT_SIZE: usize = 2;
// Where the record of the space stands in a sheet, and behind it the count of the tracks.
pub const SPACE_AT: usize = COUNT_SIZE;

pub(crate) const TRACKS_AT: usize = SPACE_AT + SpaceRow::SIZE;

// The bytes of a sheet without tracks and items, and of the longest.
const EMPTY: usize = TRACKS_AT + COUNT_SIZE + COUNT_SIZE;

pub const LONGEST: usize = EMPTY + Track::MOST * TrackRow::SIZE + Item::MOST * ItemRow::SIZE;

// A section is a count and so many records of one kind: its row says which, and how many are allowed.
pub(crate) trait SectionRow: RecordRow {
    ghost allowed: { ℕ → Bool };

    fn allows(count: usize) -> bool
        ensures { result ≡ allowed count };
}

impl SectionRow for SpaceRow {
    ghost allowed = { space_section.allows };

    fn allows(count: usize) -> bool {
        count == 1
    }
}

impl SectionRow for TrackRow {
    ghost allowed = { track_section.allows };

    fn allows(count: usize) -> bool {
        count <= Track::MOST
    }
}

impl SectionRow for ItemRow {
    ghost allowed = { item_section.allows };

    fn allows(count: usize) -> bool {
        count <= Item::MOST
    }
}

// So many bytes stand at a place.
fn reaches(length: usize, at: usize, size: usize) -> bool
    ensures { result ≡ leb (at + size) length }
{
    at <= length && size <= length - at
}

// 1, where they do not.
fn whole_fault(bytes: &[u8], at: usize, size: usize) -> Result<(), Refusal>
    ensures { fault_of result ≡ whole_to bytes.now (at + size) }
{
    let length = bytes.len();
    unless(reaches(length, at, size), Refusal::Short { length })
}

// What is wrong with the record at a place: it is not wholly there, or something inside it.
fn record_fault<R: RecordRow>(bytes: &[u8], at: usize) -> Result<(), Refusal>
    ensures { fault_of result ≡ first (whole_to bytes.now (at + record_size R.parts)) (row_fault R.parts (row_at R.parts bytes.now at) at) }
{
    whole_fault(bytes, at, R::SIZE)?;
    R::read(bytes, at).fault(at)
}

fn records_fault<R: RecordRow>(bytes: &[u8], count: usize, from: usize) -> Result<(), Refusal>
    ensures { fault_of result ≡ records_fault R.parts bytes.now count from }
{
    // The place goes along with the rows: a product for each would have to be bounded.
    let mut at = from;
    for _ in 0..count {
        record_fault::<R>(bytes, at)?;
        at += R::SIZE;
    }
    Ok(())
}

fn count_fault<R: SectionRow>(bytes: &[u8], at: usize) -> Result<(), Refusal>
    ensures { fault_of result ≡ count_fault (section_of R.allowed R.parts) bytes.now at }
{
    whole_fault(bytes, at, COUNT_SIZE)?;
    let count = two_at(bytes, at) as usize;
    unless(R::allows(count), Refusal::Count { at })
}

fn section_fault<R: SectionRow>(bytes: &[u8], at: usize) -> Result<(), Refusal>
    ensures { fault_of result ≡ section_fault (section_of R.allowed R.parts) bytes.now at }
{
    count_fault::<R>(bytes, at)?;
    let count = two_at(bytes, at) as usize;
    records_fault::<R>(bytes, count, at + COUNT_SIZE)
}

// Where the counts of the tracks and of the items stand, of a sheet that begins at `at`.
pub(crate) fn tracks_from(at: usize) -> usize
    requires { tracks_from at ≤ last_place }
    ensures { result ≡ tracks_from at }
{
    at + TRACKS_AT
}

pub(crate) fn items_from(bytes: &[u8], at: usize) -> usize
    requires { tracks_from at + 2 ≤ length bytes.now }
    ensures { result ≡ items_from bytes.now at }
{
    let tracks = tracks_from(at);
    let count = two_at(bytes, tracks) as usize;
    tracks + COUNT_SIZE + count * TrackRow::SIZE
}

// Where it ends, by counts that are there.
pub(crate) fn counted_end(bytes: &[u8], at: usize) -> usize
    requires { (tracks_from at + 2 ≤ length bytes.now) × (items_from bytes.now at + 2 ≤ length bytes.now) }
    ensures { result ≡ end_from bytes.now at }
{
    let items = items_from(bytes, at);
    let count = two_at(bytes, items) as usize;
    items + COUNT_SIZE + count * ItemRow::SIZE
}

// What is wrong with the three counts. Nothing else is read. The same three steps as in `fault_from`, with a shorter look: a function that
// is handed the look would be no plainer.
pub fn counts_fault_from(bytes: &[u8], at: usize) -> Result<(), Refusal>
    ensures { fault_of result ≡ counts_fault_from bytes.now at }
{
    count_fault::<SpaceRow>(bytes, at)?;
    count_fault::<TrackRow>(bytes, tracks_from(at))?;
    count_fault::<ItemRow>(bytes, items_from(bytes, at))
}

// What is wrong with a sheet that begins at `at`: 1 and 3 to 5.
#[tactic(auto, unfolding(crate::specs::Rule::fault_from, records::specs::Rule::record_size))]
pub fn fault_from(bytes: &[u8], at: usize) -> Result<(), Refusal>
    ensures { fault_of result ≡ fault_from bytes.now at }
{
    section_fault::<SpaceRow>(bytes, at)?;
    section_fault::<TrackRow>(bytes, tracks_from(at))?;
    section_fault::<ItemRow>(bytes, items_from(bytes, at))
}

// What is wrong with a sheet by itself: 1 and 3 to 5, then 2.
#[tactic(auto, unfolding(crate::specs::Rule::sheet_fault))]
pub(crate) fn sheet_fault(bytes: &[u8]) -> Result<(), Refusal>
    ensures { fault_of result ≡ sheet_fault bytes.now }
{
    fault_from(bytes, 0)?;
    over_fault(bytes, counted_end(bytes, 0))
}

// 2: bytes follow `end`.
pub fn over_fault(bytes: &[u8], end: usize) -> Result<(), Refusal>
    ensures { fault_of result ≡ over_fault bytes.now end }
{
    unless(bytes.len() <= end, Refusal::BytesOver { at: end })
}

// Whether both counts are there and say no more than so many tracks and items. Nothing else is read.
pub fn says_few(bytes: &[u8], tracks: usize, items: usize) -> bool
    ensures { result ≡ says_few bytes.now tracks items }
{
    if !reaches(bytes.len(), TRACKS_AT, COUNT_SIZE) {
        return false;
    }
    if two_at(bytes, TRACKS_AT) as usize > tracks {
        return false;
    }
    let items_at = items_from(bytes, 0);
    if !reaches(bytes.len(), items_at, COUNT_SIZE) {
        return false;
    }
    two_at(bytes, items_at) as usize <= items
}
