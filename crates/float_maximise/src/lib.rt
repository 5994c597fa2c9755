// Maximise: free space goes to the base sizes, up to the smaller of growth limit and fit-content limit; infinite space
// takes every base size to its growth limit (specs/Maximise.antt names the Rust's float steps in the Rust's order).
#![tactic(auto)]

ghost use Rattle.std.specs.Prelude.{◌≡◌, map, length};
ghost use Rattle.float_track.specs.Track.{base_size};
ghost use Rattle.float_maximise.specs.Maximise.{to_limit, with_increase, limits_of, filled_up, maximised, MaximiseLengths};

use float_distribution::{Parts, distribute_space_up_to_limits};
use float_track::{AvailableSpace, Track, f32_min, used_space};

// The base size becomes the growth limit.
fn to_limit(row: [f32; 5]) -> [f32; 5]
    ensures { result ≡ to_limit row }
{
    let mut track = Track::new(row, false);
    track.base_size = track.growth_limit;
    track.row()
}

// The base size takes the incurred increase.
fn with_increase(row: [f32; 5]) -> [f32; 5]
    ensures { result ≡ with_increase row }
{
    let mut track = Track::new(row, false);
    track.base_size += track.item_incurred_increase;
    track.item_incurred_increase = 0.0;
    track.row()
}

// By index into the tracks, here and below: the library's lemmas over `zip` are of two lists that are read, and here one is written.
fn load_sizes(tracks: &[[f32; 5]], sizes: &mut [f32])
    requires { length sizes.old ≡ length tracks.now }
    ensures { sizes.new ≡ map base_size tracks.now }
{
    for (i, size) in sizes.iter_mut().enumerate() {
        *size = tracks[i][0];
    }
}

fn load_limits(tracks: &[[f32; 5]], fits: &[f32], limits: &mut [f32])
    requires { (length limits.old ≡ length tracks.now) × (length fits.now ≡ length tracks.now) }
    ensures { limits.new ≡ limits_of fits.now tracks.now }
{
    for (i, limit) in limits.iter_mut().enumerate() {
        *limit = f32_min(tracks[i][1], fits[i]);
    }
}

// Every track is affected, in the proportion 1.
fn fill_up(free: f32, tracks: &mut [[f32; 5]], fits: &[f32])
    requires { MaximiseLengths tracks.old fits.now }
    ensures { tracks.new ≡ filled_up free fits.now tracks.old }
{
    let n = tracks.len();
    // Four arrays of the most tracks: there is no heap, and the lists stay apart as C lends them to a distribution of its own.
    let affected = [true; Track::MOST];
    let proportions: [f32; Track::MOST] = [1.0; Track::MOST];
    let mut sizes: [f32; Track::MOST] = [0.0; Track::MOST];
    let mut limits: [f32; Track::MOST] = [0.0; Track::MOST];
    let sizes = &mut sizes[..n];
    let limits = &mut limits[..n];
    load_sizes(tracks, sizes);
    load_limits(tracks, fits, limits);
    let parts = Parts::new(&affected[..n], &proportions[..n], sizes, limits);
    distribute_space_up_to_limits(free, tracks, &parts);
}

pub fn maximise_tracks(tracks: &mut [[f32; 5]], fits: &[f32], space: AvailableSpace)
    requires { MaximiseLengths tracks.old fits.now }
    ensures { tracks.new ≡ maximised space fits.now tracks.old }
{
    let free = space.compute_free_space(used_space(tracks));
    if free == f32::INFINITY {
        for row in tracks.iter_mut() {
            *row = to_limit(*row);
        }
        return;
    }
    if free > 0.0 {
        fill_up(free, tracks, fits);
        for grown in tracks.iter_mut() {
            *grown = with_increase(*grown);
        }
    }
}
