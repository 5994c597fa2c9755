// The float routines. A track is a row of five floats: base size, growth limit, the planned increase of each, incurred
// increase. 4 is a kind of space or an alignment that is not listed; it comes before every other refusal, at place 0.
ghost use Rattle.std.specs.Prelude.{◌≡◌, false};
ghost use Rattle.float_track.specs.Track.{track_of};
ghost use Rattle.floats.specs.Rule.{flush_base_call, flush_limit_call, distribution_call, fr_call};
ghost use Rattle.torrivask.specs.Words.{size_as, space_as, alignment_as};
ghost use Rattle.torrivask.specs.Face.{track_left, track_face, marked_left, marked_face, number_left, number_face, shared_left, shared_face, tracks_left, tracks_face, gutter_face, maximise_face, stretch_face};

use crate::refused::refused;
use crate::words::{alignment_of, size_of, space_of};
use floats::Track;

// A word that is not listed.
fn unlisted(place: &mut u64) -> u32
    ensures code { result ≡ 4 }
    ensures at { place.new ≡ 0 }
{
    *place = 0;
    4
}

#[unsafe(no_mangle)]
pub extern "C" fn torrivask_flush_planned_base_size_increases(
    track: &mut [f32; 5],
    place: &mut u64,
) -> u32
    ensures { track_left result track.new place.new ≡ track_face (flush_base_call (track_of track.old false)) track.old place.old }
{
    match floats::flush_planned_base_size_increases(Track::new(*track, false)) {
        Ok(flushed) => {
            *track = flushed.row();
            0
        }
        Err(refusal) => refused(refusal, place),
    }
}

#[unsafe(no_mangle)]
pub extern "C" fn torrivask_flush_planned_growth_limit_increases(
    track: &mut [f32; 5],
    growable: &mut bool,
    mark: bool,
    place: &mut u64,
) -> u32
    ensures { marked_left result track.new growable.new place.new ≡ marked_face (flush_limit_call (track_of track.old growable.old) mark) track.old growable.old place.old }
{
    match floats::flush_planned_growth_limit_increases(Track::new(*track, *growable), mark) {
        Ok(flushed) => {
            *track = flushed.row();
            *growable = flushed.infinitely_growable;
            0
        }
        Err(refusal) => refused(refusal, place),
    }
}

#[unsafe(no_mangle)]
pub extern "C" fn torrivask_compute_alignment_gutter_adjustment(
    alignment: u32,
    given: bool,
    inner: f32,
    known: &[bool],
    estimates: &[f32],
    gutter: &mut f32,
    place: &mut u64,
) -> u32
    ensures { number_left result gutter.new place.new ≡ number_face (gutter_face (alignment_as alignment) (size_as given inner) known.now estimates.now) gutter.old place.old }
{
    let Some(listed) = alignment_of(alignment) else {
        return unlisted(place);
    };
    let size = size_of(given, inner);
    match floats::compute_alignment_gutter_adjustment(listed, size, known, estimates) {
        Ok(x) => {
            *gutter = x;
            0
        }
        Err(refusal) => refused(refusal, place),
    }
}

#[unsafe(no_mangle)]
pub extern "C" fn torrivask_distribute_space_up_to_limits(
    space: f32,
    tracks: &mut [[f32; 5]],
    affected: &[bool],
    proportions: &[f32],
    sizes: &[f32],
    limits: &[f32],
    left: &mut f32,
    place: &mut u64,
) -> u32
    ensures { shared_left result tracks.new left.new place.new ≡ shared_face (distribution_call space tracks.old affected.now proportions.now sizes.now limits.now) left.old place.old }
{
    let answer = floats::distribute_space_up_to_limits(
        space,
        tracks,
        affected,
        proportions,
        sizes,
        limits,
    );
    match answer {
        Ok(x) => {
            *left = x;
            0
        }
        Err(refusal) => refused(refusal, place),
    }
}

#[unsafe(no_mangle)]
pub extern "C" fn torrivask_find_size_of_fr(
    tracks: &[[f32; 5]],
    flexible: &[bool],
    factors: &[f32],
    space: f32,
    size: &mut f32,
    place: &mut u64,
) -> u32
    ensures { number_left result size.new place.new ≡ number_face (fr_call tracks.now flexible.now factors.now space) size.old place.old }
{
    match floats::find_size_of_fr(tracks, flexible, factors, space) {
        Ok(x) => {
            *size = x;
            0
        }
        Err(refusal) => refused(refusal, place),
    }
}

#[unsafe(no_mangle)]
pub extern "C" fn torrivask_maximise_tracks(
    tracks: &mut [[f32; 5]],
    fits: &[f32],
    kind: u32,
    space: f32,
    place: &mut u64,
) -> u32
    ensures { tracks_left result tracks.new place.new ≡ tracks_face (maximise_face tracks.old fits.now (space_as kind space)) place.old }
{
    let Some(listed) = space_of(kind, space) else {
        return unlisted(place);
    };
    match floats::maximise_tracks(tracks, fits, listed) {
        Ok(()) => 0,
        Err(refusal) => refused(refusal, place),
    }
}

#[unsafe(no_mangle)]
pub extern "C" fn torrivask_stretch_auto_tracks(
    tracks: &mut [[f32; 5]],
    autos: &[bool],
    given: bool,
    minimum: f32,
    kind: u32,
    space: f32,
    place: &mut u64,
) -> u32
    ensures { tracks_left result tracks.new place.new ≡ tracks_face (stretch_face tracks.old autos.now (size_as given minimum) (space_as kind space)) place.old }
{
    let Some(listed) = space_of(kind, space) else {
        return unlisted(place);
    };
    let size = size_of(given, minimum);
    match floats::stretch_auto_tracks(tracks, autos, size, listed) {
        Ok(()) => 0,
        Err(refusal) => refused(refusal, place),
    }
}
