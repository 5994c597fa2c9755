// The rounds of a fill, on the rests: what room each track has left, in memory that the caller lends (specs/Rule.antt is the fill's
// rule, specs/Rests.antt the same on rests). Whoever fills rests of his own calls this; the call with its refusals is the crate fill.
#![tactic(auto)]

mod rests;

ghost use Rattle.std.specs.Prelude.{◌≡◌, ℕ, ◌+◌, ◌<◌, ◌≤◌, length};
ghost use Rattle.rounds.specs.Rule.{most_tracks};
ghost use Rattle.rounds.specs.Rests.{state_of, rest_round, fill_rests};
ghost use Rattle.rounds.specs.Found.{found_in};

use rests::Found;
pub use rests::take_odd;

// What the rounds come to. The fill's `Filled` reads alike, but is an answer of the call: `docs/PROMISES.md` names its parts.
#[derive(Clone, Copy)]
pub struct Rounds {
    pub left: u32,
    pub rounds: u32,
}

// Rounds while dots and open tracks remain: how many is not known before, so that no `for` counts them.
pub fn run_rounds(dots: u32, rests: &mut [u32]) -> Rounds
    requires { length rests.old ≤ most_tracks }
    ensures { fill_rests dots rests.old ≡ state_of rests.new result.left result.rounds }
{
    let mut left = dots;
    let mut rounds: u32 = 0;
    while left > 0 {
        let found = rests::survey(left, rests);
        if found.count == 0 {
            break;
        }
        left = round(left, found, rests);
        rounds += 1;
    }
    Rounds { left, rounds }
}

// One round. The dots that are left come back.
fn round(left: u32, found: Found, rests: &mut [u32]) -> u32
    requires { (found ≡ found_in left rests.old) × (0 < found.count) }
    ensures { (n : ℕ) → rest_round (state_of rests.old left n) ≡ state_of rests.new result (n + 1) }
{
    let count = found.count;
    let q = left / count;
    if q == 0 {
        rests::take_odd(left, rests);
        return 0;
    }
    let k = q.min(found.least);
    rests::take_each(k, rests);
    left - k * count
}
