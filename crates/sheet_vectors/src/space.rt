// The space of a case, as the row of its record.
ghost use Rattle.std.specs.Prelude.{◌≡◌, true};
ghost use Rattle.sheet_kinds.specs.Kinds.{space_row};

use sheet::{Space, SpaceRow};

// Whether this is the space that the row says.
pub fn is_space(space: Space, row: SpaceRow) -> bool
    ensures { result ≡ true → space_row space ≡ row }
{
    space.row() == row
}
