// The sheet, for C: its bytes to rows of numbers, rows to bytes, and where it ends. The space is a row too, so it can be handed over
// with a fault, as no `Space` can: its row is looked through before anything else.
ghost use Rattle.std.specs.Prelude.{◌≡◌};
ghost use Rattle.sheet.specs.Rule.{read_call, write_call, end_call};
ghost use Rattle.sheet.specs.Answer.{write_leaves};
ghost use Rattle.torrivask.specs.Sheets.{read_left, read_face, row_sheet, write_left, write_face, end_left, end_face};

use crate::refused::refused;
use records::Refusal;
use rows::{ItemRow, RecordRow, TrackRow};
use sheet::{Space, SpaceRow};

#[unsafe(no_mangle)]
pub extern "C" fn torrivask_read_sheet(
    sheet: &[u8],
    space: &mut SpaceRow,
    tracks: &mut [TrackRow],
    items: &mut [ItemRow],
    track_count: &mut u32,
    item_count: &mut u32,
    place: &mut u64,
) -> u32
    ensures { read_left result space.new tracks.new items.new track_count.new item_count.new place.new ≡ read_face (read_call sheet.now tracks.old items.old) space.old track_count.old item_count.old place.old }
{
    match sheet::read(sheet, tracks, items) {
        Ok(contents) => {
            *space = contents.space.row();
            *track_count = contents.tracks as u32;
            *item_count = contents.items as u32;
            0
        }
        Err(refusal) => refused(refusal, place),
    }
}

#[unsafe(no_mangle)]
pub extern "C" fn torrivask_write_sheet(
    space: &SpaceRow,
    tracks: &[TrackRow],
    items: &[ItemRow],
    bytes: &mut [u8],
    length: &mut u64,
    place: &mut u64,
) -> u32
    ensures { write_left result bytes.new length.new place.new ≡ write_face (write_call (row_sheet space.now tracks.now items.now) bytes.old) length.old place.old }
{
    match write_row(*space, tracks, items, bytes) {
        Ok(size) => {
            *length = size as u64;
            0
        }
        Err(refusal) => refused(refusal, place),
    }
}

// Writing where the space is a row: a fault of that row comes first.
fn write_row(
    space: SpaceRow,
    tracks: &[TrackRow],
    items: &[ItemRow],
    bytes: &mut [u8],
) -> Result<usize, Refusal>
    ensures { write_leaves result bytes.new ≡ write_call (row_sheet space tracks.now items.now) bytes.old }
{
    space.fault(sheet::SPACE_AT)?;
    sheet::write(Space::of_row(space), tracks, items, bytes)
}

#[unsafe(no_mangle)]
pub extern "C" fn torrivask_sheet_end(bytes: &[u8], end: &mut u64, place: &mut u64) -> u32
    ensures { end_left result end.new place.new ≡ end_face (end_call bytes.now) end.old place.old }
{
    match sheet::end(bytes) {
        Ok(at) => {
            *end = at as u64;
            0
        }
        Err(refusal) => refused(refusal, place),
    }
}
