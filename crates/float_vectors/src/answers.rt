// Whether an answer is the one that a case wants, for each sort of answer.
ghost use Rattle.std.specs.Prelude.{◌≡◌, true};
ghost use Rattle.floats.specs.Answer.{number_told, tracks_told, flush_told};
ghost use Rattle.float_vectors.specs.Wanted.{bits_of, row_bits, number, sized, flushed, track_bits, told_bits, told_as};

use crate::numbers::same_float;
use crate::rows::same_row;
use cases::Wanted;
use floats::{Refusal, Track};

// What a case wants told: a refusal's number and place, or an answer, with the result float and the mark that it may have.
#[derive(Clone, Copy)]
pub struct Told {
    pub wanted: Wanted,
    pub result: f32,
    pub mark: bool,
}

// One match for each sort of answer, here and in the other programs of cases: one for all would be handed the test of what is Ok, and its contract would
// say this match once more.
pub fn is_number(told: Told, answer: Result<f32, Refusal>) -> bool
    ensures { result ≡ true → told_bits (number_told answer) ≡ told_as told.wanted (number (bits_of told.result)) }
{
    match (told.wanted, answer) {
        (Ok(_), Ok(x)) => same_float(x, told.result),
        (Err(wanted), Err(refusal)) => wanted.is(refusal.number(), refusal.place()),
        _ => false,
    }
}

pub fn is_sized(told: Told, answer: Result<(), Refusal>) -> bool
    ensures { result ≡ true → told_bits (tracks_told answer) ≡ told_as told.wanted sized }
{
    match (told.wanted, answer) {
        (Ok(_), Ok(())) => true,
        (Err(wanted), Err(refusal)) => wanted.is(refusal.number(), refusal.place()),
        _ => false,
    }
}

fn is_track(track: Track, row: [f32; 5], mark: bool) -> bool
    ensures { result ≡ true → track_bits track ≡ flushed (row_bits row) mark }
{
    track.infinitely_growable == mark && same_row(track.row(), row)
}

pub fn is_flushed(told: Told, after: [f32; 5], answer: Result<Track, Refusal>) -> bool
    ensures { result ≡ true → told_bits (flush_told answer) ≡ told_as told.wanted (flushed (row_bits after) told.mark) }
{
    match (told.wanted, answer) {
        (Ok(_), Ok(track)) => is_track(track, after, told.mark),
        (Err(wanted), Err(refusal)) => wanted.is(refusal.number(), refusal.place()),
        _ => false,
    }
}
