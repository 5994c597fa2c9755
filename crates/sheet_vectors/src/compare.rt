// The calls of the sheet, with everything that each leaves compared. A case that agrees is the published rule's own answer.
ghost use Rattle.std.specs.Prelude.{◌≡◌, true};
ghost use Rattle.sheet.specs.Rule.{read_outcome, read_call, write_outcome, write_call, end_call};
ghost use Rattle.sheet_vectors.specs.Wanted.{wanted_read, wanted_write, wanted_end, sheet_said};

use crate::answers;
use crate::space::is_space;
use cases::{Wanted, same};
use sheet::{Space, SpaceRow};

// Whether reading tells what is wanted and leaves the rows as given after it.
pub fn reads(
    wanted: Wanted,
    space: SpaceRow,
    bytes: &[u8],
    tracks: &mut [[u32; 4]],
    items: &mut [[u32; 7]],
    tracks_after: &[[u32; 4]],
    items_after: &[[u32; 7]],
) -> bool
    ensures { result ≡ true → read_outcome (wanted_read wanted space) tracks_after.now items_after.now ≡ read_call bytes.now tracks.old items.old }
{
    let answer = sheet::read(bytes, tracks, items);
    answers::is_read(wanted, space, answer)
        && same(tracks, tracks_after)
        && same(items, items_after)
}

// Whether writing the space that its row says, with these rows, tells what is wanted and leaves the bytes as given
// after it.
pub fn writes(
    wanted: Wanted,
    space: SpaceRow,
    tracks: &[[u32; 4]],
    items: &[[u32; 7]],
    bytes: &mut [u8],
    after: &[u8],
) -> bool
    ensures { result ≡ true → write_outcome (wanted_write wanted) after.now ≡ write_call (sheet_said space tracks.now items.now) bytes.old }
{
    let said = Space::of_row(space);
    is_space(said, space)
        && answers::is_size(wanted, sheet::write(said, tracks, items, bytes))
        && *bytes == *after
}

// Whether the end of a sheet is told as wanted.
pub fn ends(wanted: Wanted, bytes: &[u8]) -> bool
    ensures { result ≡ true → wanted_end wanted ≡ end_call bytes.now }
{
    answers::is_size(wanted, sheet::end(bytes))
}
