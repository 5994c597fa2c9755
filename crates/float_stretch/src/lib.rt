// Stretch: what is free is shared equally by the tracks of auto maximum (specs/Stretch.antt names the Rust's float steps in
// the Rust's order).
#![tactic(auto)]

ghost use Rattle.std.specs.Prelude.{◌≡◌, ◌≤◌, length};
ghost use Rattle.laws.specs.Marks.{number};
ghost use Rattle.float_laws.specs.Numbers.{most_tracks};
ghost use Rattle.float_stretch.specs.Stretch.{StretchLengths, stretched_row, grown_by, stretched};

use float_track::{AvailableSpace, Track, used_space};

// A `for`: over `filter` and `count` the proof did not close.
fn auto_count(autos: &[bool]) -> usize
    requires { length autos.now ≤ most_tracks }
    ensures { result ≡ number autos.now }
{
    let mut count = 0;
    for auto in autos {
        count += usize::from(*auto);
    }
    count
}

fn stretched_row(auto: bool, row: [f32; 5], extra: f32) -> [f32; 5]
    ensures { result ≡ stretched_row auto extra row }
{
    if auto {
        let mut track = Track::new(row, false);
        track.base_size += extra;
        return track.row();
    }
    row
}

// By index: the library's lemmas over `zip` are of two lists that are read, and here one is written.
#[tactic(auto, using(crate::proofs::Answers::by_turn))]
fn grow_by(tracks: &mut [[f32; 5]], autos: &[bool], extra: f32)
    requires { length autos.now ≡ length tracks.old }
    ensures { tracks.new ≡ grown_by extra autos.now tracks.old }
{
    for (i, row) in tracks.iter_mut().enumerate() {
        *row = stretched_row(autos[i], *row, extra);
    }
}

pub fn stretch_auto_tracks(
    tracks: &mut [[f32; 5]],
    autos: &[bool],
    minimum: Option<f32>,
    space: AvailableSpace,
)
    requires { StretchLengths tracks.old autos.now }
    ensures { tracks.new ≡ stretched minimum space autos.now tracks.old }
{
    let count = auto_count(autos);
    if count > 0 {
        let free = space.stretch_space(minimum, used_space(tracks));
        if free > 0.0 {
            grow_by(tracks, autos, free / (count as f32));
        }
    }
}
