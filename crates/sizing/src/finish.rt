// Steps 6 and 7, then the sizes and the free space: what is told of a board. The store is lent slice by slice, as in `size`.
ghost use Rattle.std.specs.Prelude.{◌≡◌, map, ◌≤◌, length};
ghost use Rattle.rounds.specs.Rule.{most_tracks};
ghost use Rattle.lines.specs.Rule.{free_of, sizes_of};
ghost use Rattle.spanned.specs.Sound.{ConstraintFits};
ghost use Rattle.lines.specs.Fits.{MeasuredFit};
ghost use Rattle.sizing.specs.Size.{free_told, FreeFits, finished_lines};
ghost use Rattle.sizing.specs.Store.{Finishing};

use crate::dots::stretch;
use crate::free::difference;
use flexible::flex;
use kinds::Constraint;
use letters::base_total;
use lines::{Chain, Line};

pub(crate) fn free_of(expansion: Constraint, lines: &[Line]) -> Option<i32>
    requires { (length lines.now ≤ most_tracks) × ConstraintFits expansion × FreeFits expansion lines.now }
    ensures { free_told result ≡ free_of expansion lines.now }
{
    match expansion {
        Constraint::Definite(n) => {
            let total = base_total(lines);
            Some(difference(n as u64, total))
        }
        _ => None,
    }
}

// Base and limit of every line.
pub(crate) fn write_sizes(lines: &[Line], sizes: &mut [[u32; 2]])
    requires { length sizes.old ≡ length lines.now }
    ensures { sizes.new ≡ map sizes_of lines.now }
{
    for (i, size) in sizes.iter_mut().enumerate() {
        let line = lines[i];
        *size = [line.base, line.limit_size()];
    }
}

// Steps 6 and 7, then the sizes; the free space comes back. The batch has the items that cross an fr track.
pub(crate) fn finish(
    expansion: Constraint,
    asked: bool,
    batch: &Chain<'_>,
    lines: &mut [Line],
    increases: &mut [u32],
    rests: &mut [u32],
    held: &mut [bool],
    sizes: &mut [[u32; 2]],
) -> Option<i32>
    requires { Finishing lines.old increases.old rests.old held.old sizes.old
        × MeasuredFit (length lines.old) batch.now
        × ConstraintFits expansion }
    ensures { (free_told result ≡ free_of expansion (finished_lines expansion asked batch.now lines.old))
        × (sizes.new ≡ map sizes_of (finished_lines expansion asked batch.now lines.old)) }
{
    let total = base_total(lines);
    flex(expansion, total, batch, lines, held);
    stretch(asked, expansion, lines, increases, rests);
    write_sizes(lines, sizes);
    free_of(expansion, lines)
}
