// The routines, with everything that they leave compared. A case that agrees is the published rule's own answer, bit
// for bit.
ghost use Rattle.std.specs.Prelude.{◌≡◌, true};
ghost use Rattle.floats.specs.Rule.{flush_base_call, flush_limit_call, gutter_call, distribution_call, fr_call, maximise_call, stretch_call};
ghost use Rattle.float_vectors.specs.Wanted.{bits_of, row_bits, rows_bits, number, sized, flushed, told_bits, told_as, left_as, outcome_bits};

use crate::answers::{Told, is_flushed, is_number, is_sized};
use crate::rows::same_rows;
use floats::{AlignContent, AvailableSpace, Track};

pub fn is_base_flushed(told: Told, track: Track, after: [f32; 5]) -> bool
    ensures { result ≡ true → told_as told.wanted (flushed (row_bits after) told.mark) ≡ told_bits (flush_base_call track) }
{
    let answer = floats::flush_planned_base_size_increases(track);
    is_flushed(told, after, answer)
}

pub fn is_limit_flushed(told: Told, track: Track, mark: bool, after: [f32; 5]) -> bool
    ensures { result ≡ true → told_as told.wanted (flushed (row_bits after) told.mark) ≡ told_bits (flush_limit_call track mark) }
{
    let answer = floats::flush_planned_growth_limit_increases(track, mark);
    is_flushed(told, after, answer)
}

pub fn is_adjusted(
    told: Told,
    alignment: AlignContent,
    inner: Option<f32>,
    known: &[bool],
    estimates: &[f32],
) -> bool
    ensures { result ≡ true → told_as told.wanted (number (bits_of told.result)) ≡ told_bits (gutter_call alignment inner known.now estimates.now) }
{
    let answer = floats::compute_alignment_gutter_adjustment(alignment, inner, known, estimates);
    is_number(told, answer)
}

pub fn is_distributed(
    told: Told,
    space: f32,
    tracks: &mut [[f32; 5]],
    affected: &[bool],
    proportions: &[f32],
    sizes: &[f32],
    limits: &[f32],
    after: &[[f32; 5]],
) -> bool
    ensures { result ≡ true → left_as (told_as told.wanted (number (bits_of told.result))) (rows_bits after.now) ≡ outcome_bits (distribution_call space tracks.old affected.now proportions.now sizes.now limits.now) }
{
    let answer = floats::distribute_space_up_to_limits(
        space,
        tracks,
        affected,
        proportions,
        sizes,
        limits,
    );
    is_number(told, answer) && same_rows(tracks, after)
}

pub fn is_fr_size(
    told: Told,
    tracks: &[[f32; 5]],
    flexible: &[bool],
    factors: &[f32],
    space: f32,
) -> bool
    ensures { result ≡ true → told_as told.wanted (number (bits_of told.result)) ≡ told_bits (fr_call tracks.now flexible.now factors.now space) }
{
    let answer = floats::find_size_of_fr(tracks, flexible, factors, space);
    is_number(told, answer)
}

pub fn is_maximised(
    told: Told,
    tracks: &mut [[f32; 5]],
    fits: &[f32],
    space: AvailableSpace,
    after: &[[f32; 5]],
) -> bool
    ensures { result ≡ true → left_as (told_as told.wanted sized) (rows_bits after.now) ≡ outcome_bits (maximise_call tracks.old fits.now space) }
{
    let answer = floats::maximise_tracks(tracks, fits, space);
    is_sized(told, answer) && same_rows(tracks, after)
}

pub fn is_stretched(
    told: Told,
    tracks: &mut [[f32; 5]],
    autos: &[bool],
    minimum: Option<f32>,
    space: AvailableSpace,
    after: &[[f32; 5]],
) -> bool
    ensures { result ≡ true → left_as (told_as told.wanted sized) (rows_bits after.now) ≡ outcome_bits (stretch_call tracks.old autos.now minimum space) }
{
    let answer = floats::stretch_auto_tracks(tracks, autos, minimum, space);
    is_sized(told, answer) && same_rows(tracks, after)
}
