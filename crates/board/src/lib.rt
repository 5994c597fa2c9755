// The board: a sheet's bytes and lent sizes in, sizes or a refusal out (specs/Rule.antt is the rule, docs/PROMISES.md the promise
// in words). A sheet is read, and what it says is laid out. All memory that this takes is chosen here, once, and lent to what is below.
#![tactic(auto)]

mod refusal;

ghost use Rattle.std.specs.Prelude.{◌≡◌, ◌+◌, ◌≤◌, map, length, take};
ghost use Rattle.rounds.specs.Rule.{most_tracks};
ghost use Rattle.sheet.specs.Rule.{most_items};
ghost use Rattle.lines.specs.Chains.{batches};
ghost use Rattle.kinds.specs.Kinds.{item_of};
ghost use Rattle.sheet_kinds.specs.Kinds.{sheet_track_of};
ghost use Rattle.sizing.specs.Store as sizing;
ghost use Rattle.layout.specs.Rule.{layout_call};
ghost use Rattle.layout.specs.Answer.{layout_leaves};
ghost use Rattle.board.specs.Rule.{board_call};
ghost use Rattle.board.specs.Store.{Enough, Store};
ghost use Rattle.board.specs.Answer.{board_leaves, own_answer};

use chains::MORE_BATCHES;
use kinds::{Item, Track};
pub use layout::Board;
use layout::{Line, Totals, lay_out};
pub use refusal::Refusal;
use sheet::{Contents, says_few};

// So many tracks, or items, at most work in a small store, which is cleared sooner.
const FEW: usize = 64;

// A head for each batch; a total before each track, and one behind the last.
const FEW_HEADS: usize = FEW + MORE_BATCHES;

const FEW_TOTALS: usize = FEW + 1;

const TRACKS: usize = Track::MOST;

const ITEMS: usize = Item::MOST;

const HEADS: usize = TRACKS + MORE_BATCHES;

const TOTALS: usize = TRACKS + 1;

// Sizes a sheet. Base and limit of track t become `sizes[t]`; those past the tracks, and all of them after a refusal, keep what they
// hold.
pub fn board(bytes: &[u8], sizes: &mut [[u32; 2]]) -> Result<Board, Refusal>
    ensures { (board_leaves result sizes.new ≡ board_call bytes.now sizes.old) × (own_answer result ≡ result) }
{
    if says_few(bytes, FEW, FEW) {
        return board_in::<FEW, FEW, FEW_HEADS, FEW_TOTALS>(bytes, sizes);
    }
    board_in::<TRACKS, ITEMS, HEADS, TOTALS>(bytes, sizes)
}

// In a store for so many tracks and items, fixed memory. A const argument is not computed, so heads and totals are said too.
fn board_in<const TRACKS: usize, const ITEMS: usize, const HEADS: usize, const TOTALS: usize>(
    bytes: &[u8],
    sizes: &mut [[u32; 2]],
) -> Result<Board, Refusal>
    requires rows { Enough bytes.now TRACKS ITEMS }
    requires sizes { (TRACKS ≤ most_tracks) × (ITEMS ≤ most_items) × (HEADS ≡ batches TRACKS) × (TOTALS ≡ TRACKS + 1) }
    ensures { (board_leaves result sizes.new ≡ board_call bytes.now sizes.old) × (own_answer result ≡ result) }
{
    let mut tracks = [[0u32; 4]; TRACKS];
    let mut items = [[0u32; 7]; ITEMS];
    let mut heads = [0usize; HEADS];
    let mut nexts = [0usize; ITEMS];
    let mut lines = [Line::BLANK; TRACKS];
    let mut increases = [0u32; TRACKS];
    let mut gains = [0u32; TRACKS];
    let mut rests = [0u32; TRACKS];
    let mut sums = [Totals::NONE; TOTALS];
    let mut held = [false; TRACKS];
    board_with(
        bytes,
        &mut tracks,
        &mut items,
        &mut heads,
        &mut nexts,
        &mut lines,
        &mut increases,
        &mut gains,
        &mut rests,
        &mut sums,
        &mut held,
        sizes,
    )
}

// Reads the sheet into the rows that are lent, and lays out what it says. Lent slice by slice, as below.
fn board_with(
    bytes: &[u8],
    tracks: &mut [[u32; 4]],
    items: &mut [[u32; 7]],
    heads: &mut [usize],
    nexts: &mut [usize],
    lines: &mut [Line],
    increases: &mut [u32],
    gains: &mut [u32],
    rests: &mut [u32],
    sums: &mut [Totals],
    held: &mut [bool],
    sizes: &mut [[u32; 2]],
) -> Result<Board, Refusal>
    requires { Store bytes.now tracks.old items.old heads.old nexts.old lines.old increases.old gains.old rests.old sums.old held.old }
    ensures { (board_leaves result sizes.new ≡ board_call bytes.now sizes.old) × (own_answer result ≡ result) }
{
    let contents = sheet::read(bytes, tracks, items)?;
    let board = lay_out_contents(
        contents, tracks, items, heads, nexts, lines, increases, gains, rests, sums, held, sizes,
    )?;
    Ok(board)
}

// What was read, laid out: the first rows are the sheet's, and the layout gets as much of the store as they need. It is lent slice by slice: a struct of
// `&mut` would have to promise of each field that it is the same slice as before (batch.rt of `spans` says more).
fn lay_out_contents(
    contents: Contents,
    tracks: &[[u32; 4]],
    items: &[[u32; 7]],
    heads: &mut [usize],
    nexts: &mut [usize],
    lines: &mut [Line],
    increases: &mut [u32],
    gains: &mut [u32],
    rests: &mut [u32],
    sums: &mut [Totals],
    held: &mut [bool],
    sizes: &mut [[u32; 2]],
) -> Result<Board, layout::Refusal>
    requires read { (contents.tracks ≤ most_tracks) × (contents.tracks ≤ length tracks.now) × (contents.items ≤ length items.now) }
    requires store { sizing.Store tracks.now items.now heads.old nexts.old lines.old increases.old gains.old rests.old sums.old held.old }
    ensures { layout_leaves result sizes.new ≡ layout_call contents.space (map sheet_track_of (take contents.tracks tracks.now)) (map item_of (take contents.items items.now)) sizes.old }
{
    let n = contents.tracks;
    let m = contents.items;
    let batches = n + MORE_BATCHES;
    let totals = n + 1;
    lay_out(
        contents.space,
        &tracks[..n],
        &items[..m],
        &mut heads[..batches],
        &mut nexts[..m],
        &mut lines[..n],
        &mut increases[..n],
        &mut gains[..n],
        &mut rests[..n],
        &mut sums[..totals],
        &mut held[..n],
        sizes,
    )
}
