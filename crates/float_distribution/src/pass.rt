// The passes over the tracks.
ghost use Rattle.std.specs.Prelude.{◌≡◌, ◌+◌, length};
ghost use Rattle.float_distribution.specs.Distribution.{proportion_sum, least_room, one_pass, passes, left};
ghost use Rattle.float_distribution.specs.Parts.{in_lists, count, IsFold};

use crate::part::Part;
use crate::parts::Parts;
use float_track::{Track, f32_min};

// A step for each track in order, told its part and what the steps before it made of the start.
fn fold<F: Fn(Part, Track, f32) -> f32>(
    tracks: &[[f32; 5]],
    parts: &Parts,
    start: f32,
    step: F,
) -> f32
    requires lengths { count parts.now ≡ length tracks.now }
    requires callable { F.IsAlwaysCallable step }
    ensures { IsFold (F.post step) (in_lists parts.now) tracks.now (length tracks.now) start result }
{
    let mut sum = start;
    for (i, row) in tracks.iter().enumerate() {
        sum = step(parts.part(i), Track::new(*row, false), sum);
    }
    sum
}

// The proportions of the open tracks, added in order.
fn proportion_sum(tracks: &[[f32; 5]], parts: &Parts) -> f32
    requires { count parts.now ≡ length tracks.now }
    ensures { result ≡ proportion_sum (in_lists parts.now) tracks.now }
{
    fold(
        tracks,
        parts,
        -0.0,
        |part, track, sum| part.add_proportion(track, sum),
    )
}

// The least room of the open tracks.
fn least_room(tracks: &[[f32; 5]], parts: &Parts) -> f32
    requires { count parts.now ≡ length tracks.now }
    ensures { result ≡ least_room (in_lists parts.now) tracks.now }
{
    fold(
        tracks,
        parts,
        f32::INFINITY,
        |part, track, least| part.less_room(track, least),
    )
}

// Each affected track takes its part of the share. The space that is left.
#[tactic(auto, using(crate::proofs::Passes::by_turn))]
fn one_pass(share: f32, space: f32, tracks: &mut [[f32; 5]], parts: &Parts) -> f32
    requires { count parts.now ≡ length tracks.old }
    ensures { left result tracks.new ≡ one_pass (in_lists parts.now) share (left space tracks.old) }
{
    let mut rest = space;
    for (i, row) in tracks.iter_mut().enumerate() {
        let part = parts.part(i);
        let grown = part.grow(Track::new(*row, false), share, rest);
        *row = grown.track.row();
        rest = grown.space;
    }
    rest
}

// Passes while more than the threshold is left and a track is open, one more than there are tracks at most. The space
// that is left.
#[tactic(auto, using(crate::proofs::Passes::by_pass))]
pub fn distribute_space_up_to_limits(space: f32, tracks: &mut [[f32; 5]], parts: &Parts) -> f32
    requires { count parts.now ≡ length tracks.old }
    ensures { left result tracks.new ≡ passes (in_lists parts.now) (length tracks.old + 1) (left space tracks.old) }
{
    let most = tracks.len() + 1;
    let mut rest = space;
    for _ in 0..most {
        if rest <= Track::THRESHOLD {
            return rest;
        }
        let sum = proportion_sum(tracks, parts);
        if sum == 0.0 {
            return rest;
        }
        let least = least_room(tracks, parts);
        let share = f32_min(least, rest / sum);
        rest = one_pass(share, rest, tracks, parts);
    }
    rest
}
