// A space and rows laid out into lent sizes, wherever they were read: the sizes or a refusal (specs/Rule.antt is the rule). No size is
// written before every refusal has been ruled out. Its one call is for who has read a sheet and lends a store: it says what it asks.
#![tactic(auto)]

mod refusal;

ghost use Rattle.std.specs.Prelude.{◌≡◌, map, ◌≤◌, length};
ghost use Rattle.rounds.specs.Rule.{most_tracks};
ghost use Rattle.kinds.specs.Kinds.{item_of};
ghost use Rattle.sheet_kinds.specs.Kinds.{sheet_track_of};
ghost use Rattle.sizing.specs.Store.{Store};
ghost use Rattle.layout.specs.Rule.{layout_call};
ghost use Rattle.layout.specs.Answer.{layout_leaves};

use checks::record_fault;
// What a store is made of, beside numbers and marks.
pub use letters::Totals;
pub use lines::Line;
pub use refusal::Refusal;
use sheet_kinds::Space;
use sizing::size;

// What a board tells beside its sizes.
#[derive(Clone, Copy)]
pub struct Board {
    pub tracks: usize,
    // None where the expansion space is not definite.
    pub free: Option<i32>,
    pub rounds: u32,
}

// 6, then 7 to 10, then the sizes: base and limit of track t become `sizes[t]`; those past the tracks, and all of them after a refusal,
// keep what they hold. Between items and sizes stands the store of the sizing, lent slice by slice: a struct of `&mut` would have to promise of each field that it is
// the same slice as before (batch.rt of `spans` says more).
pub fn lay_out(
    space: Space,
    tracks: &[[u32; 4]],
    items: &[[u32; 7]],
    heads: &mut [usize],
    nexts: &mut [usize],
    lines: &mut [Line],
    increases: &mut [u32],
    gains: &mut [u32],
    rests: &mut [u32],
    sums: &mut [Totals],
    held: &mut [bool],
    sizes: &mut [[u32; 2]],
) -> Result<Board, Refusal>
    requires { (length tracks.now ≤ most_tracks)
        × Store tracks.now items.now heads.old nexts.old lines.old increases.old gains.old rests.old sums.old held.old }
    ensures { layout_leaves result sizes.new ≡ layout_call space (map sheet_track_of tracks.now) (map item_of items.now) sizes.old }
{
    let count = tracks.len();
    if sizes.len() < count {
        return Err(Refusal::LentTooShort);
    }
    record_fault(space, tracks, items)?;
    // The rows say the tracks that the sizing reads too.
    let sized = size(
        space.constraint,
        space.expansion(),
        space.stretch,
        tracks,
        items,
        heads,
        nexts,
        lines,
        increases,
        gains,
        rests,
        sums,
        held,
        &mut sizes[..count],
    );
    Ok(Board {
        tracks: count,
        free: sized.free,
        rounds: sized.rounds,
    })
}
