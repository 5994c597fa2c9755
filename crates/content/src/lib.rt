// Steps 1 to 4 of the sizing: the sizes that content asks (lines/specs/Rule.antt is the rule). Its one call is for the sizing and says what
// it asks.
#![tactic(auto)]

ghost use Rattle.std.specs.Prelude.{◌≡◌, map, ◌+◌, ◌≤◌, length};
ghost use Rattle.laws.specs.Lists.{All};
ghost use Rattle.rounds.specs.Rule.{most_tracks};
ghost use Rattle.kinds.specs.Kinds.{track_of, item_of};
ghost use Rattle.spanned.specs.Sound.{TrackFits, Sound};
ghost use Rattle.lines.specs.Fits.{LinesFit};
ghost use Rattle.chains.specs.Batches.{Gathered, Gatherable};
ghost use Rattle.letters.specs.Increases.{NoIncrease};
ghost use Rattle.letters.specs.Totals.{tallied};
ghost use Rattle.spans.specs.Work.{Working, Calm, BatchesOn};
ghost use Rattle.content.specs.Store.{Store, prepared_lines, spread_lines, content_lines};

use chains::{fr_batch, gather};
use kinds::Constraint;
use letters::{Batch, Totals, tally};
use lines::{Batches, Chain, Line, fill_missing, start};
use spans::{batched, longer, singles};

// Steps 1 and 2, the chains of the batches, and the totals of the lines.
fn prepare(
    constraint: Constraint,
    tracks: &[[u32; 4]],
    items: &[[u32; 7]],
    heads: &mut [usize],
    nexts: &mut [usize],
    lines: &mut [Line],
    sums: &mut [Totals],
)
    requires { Gatherable tracks.now items.now heads.old nexts.old
        × All TrackFits (map track_of tracks.now)
        × (length lines.old ≡ length tracks.now)
        × (length sums.old ≡ length tracks.now + 1) }
    ensures { (lines.new ≡ prepared_lines constraint tracks.now items.now)
        × LinesFit lines.new
        × Gathered (map track_of tracks.now) items.now heads.new nexts.new
        × (sums.new ≡ tallied lines.new) }
{
    start(tracks, lines);
    gather(tracks, items, heads, nexts);
    singles(constraint, &Chain::new(items, nexts, heads[1]), lines);
    tally(lines, sums);
}

// Steps 3 and 4.
fn spread(
    constraint: Constraint,
    batches: &Batches<'_>,
    lines: &mut [Line],
    increases: &mut [u32],
    gains: &mut [u32],
    rests: &mut [u32],
    sums: &mut [Totals],
)
    requires { Working lines.old increases.old gains.old rests.old sums.old
        × BatchesOn (length lines.old) batches.now
        × Calm lines.old }
    ensures { (lines.new ≡ spread_lines constraint batches.now lines.old)
        × LinesFit lines.new
        × NoIncrease lines.old increases.new }
{
    longer(constraint, batches, lines, increases, gains, rests, sums);
    let last = batches.batch(fr_batch(lines.len()));
    batched(
        Batch::Last,
        constraint,
        &last,
        lines,
        increases,
        gains,
        rests,
        sums,
    );
    fill_missing(lines);
}

// In the store that is lent, slice by slice: no heap, and a struct of them would be no plainer (spans/src/batch.rt says why). No increase is
// planned before and after.
pub fn content(
    constraint: Constraint,
    tracks: &[[u32; 4]],
    items: &[[u32; 7]],
    heads: &mut [usize],
    nexts: &mut [usize],
    lines: &mut [Line],
    increases: &mut [u32],
    gains: &mut [u32],
    rests: &mut [u32],
    sums: &mut [Totals],
)
    requires { (length tracks.now ≤ most_tracks)
        × Sound (map track_of tracks.now) (map item_of items.now)
        × Store tracks.now items.now heads.old nexts.old lines.old increases.old gains.old rests.old sums.old }
    ensures { (lines.new ≡ content_lines constraint tracks.now items.now)
        × LinesFit lines.new
        × Gathered (map track_of tracks.now) items.now heads.new nexts.new
        × NoIncrease lines.old increases.new }
{
    prepare(constraint, tracks, items, heads, nexts, lines, sums);
    let batches = Batches::new(items, heads, nexts);
    spread(constraint, &batches, lines, increases, gains, rests, sums);
}
