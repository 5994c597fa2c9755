// There and back: a sheet that is read and written is its own bytes, and one that is written and read its own space and rows
// (specs/Rule.antt is the rule). Nobody calls these in the core: they say of the calls of `sheet` what they do together.
#![tactic(auto)]

ghost use Rattle.std.specs.Prelude.{◌≡◌};
ghost use Rattle.sheet.specs.Answer.{read_leaves, write_leaves, sheet_of};
ghost use Rattle.round_trip.specs.Rule.{copied, read_and_write, carried, write_and_read};

use rows::{ItemRow, TrackRow};
use sheet::{Contents, Refusal, Space};

// Reads a sheet and writes back what was read: the same bytes.
pub fn read_and_write(
    bytes: &[u8],
    tracks: &mut [TrackRow],
    items: &mut [ItemRow],
    into: &mut [u8],
) -> Result<usize, Refusal>
    ensures { copied (write_leaves result into.new) tracks.new items.new ≡ read_and_write bytes.now tracks.old items.old into.old }
{
    let read = sheet::read(bytes, tracks, items)?;
    sheet::write(
        read.space,
        &tracks[..read.tracks],
        &items[..read.items],
        into,
    )
}

// Writes a sheet and reads back what was written: the same space and rows.
pub fn write_and_read(
    space: Space,
    tracks: &[TrackRow],
    items: &[ItemRow],
    bytes: &mut [u8],
    into_tracks: &mut [TrackRow],
    into_items: &mut [ItemRow],
) -> Result<Contents, Refusal>
    ensures { carried (read_leaves result into_tracks.new into_items.new) bytes.new ≡ write_and_read (sheet_of space tracks.now items.now) bytes.old into_tracks.old into_items.old }
{
    let length = sheet::write(space, tracks, items, bytes)?;
    sheet::read(&bytes[..length], into_tracks, into_items)
}
