// The sizing of a board without fault, step after step (lines/specs/Rule.antt is the rule). Its one function is for the layout:
// it asks what the checks have made sure of, and a store to work in.
#![tactic(auto)]

mod dots;
mod finish;
mod free;

ghost use Rattle.std.specs.Prelude.{◌≡◌, length};
ghost use Rattle.sizing.specs.Size.{Sizable, board_of, size_rows};
ghost use Rattle.sizing.specs.Store.{Store};

use chains::fr_batch;
use content::content;
use dots::maximise;
use finish::finish;
use kinds::Constraint;
// What a store is made of, beside numbers and marks.
pub use letters::Totals;
use lines::Chain;
pub use lines::Line;

#[derive(Clone, Copy)]
pub struct Sized {
    // None where the expansion space is not definite.
    pub free: Option<i32>,
    pub rounds: u32,
}

// Base and limit of track t become `sizes[t]`. `asked` says whether to stretch. The rest is the store: a head for each batch, a next beside
// each item, and beside each track a line, its increase, scratch, totals and a mark. It is lent slice by slice: no heap, and a struct of
// them would be no plainer (spans/src/batch.rt says why).
pub fn size(
    constraint: Constraint,
    expansion: Constraint,
    asked: bool,
    tracks: &[[u32; 4]],
    items: &[[u32; 7]],
    heads: &mut [usize],
    nexts: &mut [usize],
    lines: &mut [Line],
    increases: &mut [u32],
    gains: &mut [u32],
    rests: &mut [u32],
    sums: &mut [Totals],
    held: &mut [bool],
    sizes: &mut [[u32; 2]],
) -> Sized
    requires { Sizable constraint expansion tracks.now items.now
        × Store tracks.now items.now heads.old nexts.old lines.old increases.old gains.old rests.old sums.old held.old
        × (length sizes.old ≡ length tracks.now) }
    ensures { board_of result sizes.new ≡ size_rows constraint expansion asked tracks.now items.now }
{
    content(
        constraint, tracks, items, heads, nexts, lines, increases, gains, rests, sums,
    );
    let rounds = maximise(constraint, lines, increases, rests);
    let batch = Chain::new(items, nexts, heads[fr_batch(tracks.len())]);
    let free = finish(
        expansion, asked, &batch, lines, increases, rests, held, sizes,
    );
    Sized { free, rounds }
}
