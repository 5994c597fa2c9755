// The used space: the base sizes added in order, from -0.0 as the Rust's sums start.
ghost use Rattle.std.specs.Prelude.{◌≡◌};
ghost use Rattle.float_track.specs.Track.{used_space};

pub fn used_space(tracks: &[[f32; 5]]) -> f32
    ensures { result ≡ used_space tracks.now }
{
    let mut used: f32 = -0.0;
    for row in tracks {
        used += row[0];
    }
    used
}
