// The items gathered into batches once: a head for each batch, and beside each item the next of its batch, so that a batch
// costs the items in it. The chains stand in lent memory, since there is no heap: an item is named by its number,
// and the number past the last item ends a chain.
#![tactic(auto)]

ghost use Rattle.std.specs.Prelude.{◌≡◌, map, ◌≤◌, length};
ghost use Rattle.rounds.specs.Rule.{most_tracks};
ghost use Rattle.kinds.specs.Kinds.{track_of};
ghost use Rattle.lines.specs.Chains.{fr_batch};
ghost use Rattle.chains.specs.Batches.{batch_of, Gathered, Gatherable};

use kinds::Item;
use std::mem::replace;

// So many batches more than tracks: none for items without part, one for each span, 1 also where there is no track, and the last.
pub const MORE_BATCHES: usize = 3;

// The batch of the items that cross an fr track, past every span of so many tracks: it is sized last.
pub fn fr_batch(tracks: usize) -> usize
    requires { tracks ≤ most_tracks }
    ensures { result ≡ fr_batch tracks }
{
    tracks + (MORE_BATCHES - 1)
}

// The number of an item's batch.
#[tactic(auto, unfolding(crate::specs::Batches::batch_of))]
fn batch_of(item: Item, tracks: &[[u32; 4]]) -> usize
    requires { length tracks.now ≤ most_tracks }
    ensures { result ≡ batch_of (map track_of tracks.now) item }
{
    if spanned::lacks_contribution(item) || !spanned::is_measured(tracks, item) {
        0
    } else if spanned::crosses_fr(tracks, item) {
        fr_batch(tracks.len())
    } else {
        item.span as usize
    }
}

// Each batch, chained from its head on. The items are taken from the last to the first, so that a chain has their order.
pub fn gather(tracks: &[[u32; 4]], items: &[[u32; 7]], heads: &mut [usize], nexts: &mut [usize])
    requires { Gatherable tracks.now items.now heads.old nexts.old }
    ensures { Gathered (map track_of tracks.now) items.now heads.new nexts.new }
{
    heads.fill(items.len());
    nexts.fill(items.len());
    for i in (0..items.len()).rev() {
        let k = batch_of(Item::of_row(items[i]), tracks);
        nexts[i] = replace(&mut heads[k], i);
    }
}
