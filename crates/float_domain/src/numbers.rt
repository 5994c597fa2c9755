// 13: the first float of a call that is outside its domain, by its index.
ghost use Rattle.std.specs.Prelude.{◌≡◌, [], ◌∷◌, ◌<◌, OnOk};
ghost use Rattle.laws.specs.Lists.{All};
ghost use Rattle.float_laws.specs.Numbers.{IsF32};
ghost use Rattle.float_domain.specs.Domain.{given, outside_from, numbers_of, track_numbers, tracks_numbers};
ghost use Rattle.float_domain.specs.Answer.{fault_of, room_for_slice, room_for_track};

use crate::kind::Kind;
use crate::refusal::Refusal;

// One float.
#[tactic(auto, unfolding(crate::specs::Domain::outside_from))]
pub fn number_fault(index: usize, kind: Kind, x: f32) -> Result<(), Refusal>
    ensures { fault_of result ≡ outside_from index (given kind x ∷ []) }
{
    if kind.holds(x) {
        return Ok(());
    }
    Err(Refusal::Outside { index })
}

// A slice of floats of one kind, the first of which has the index `from`.
pub fn slice_fault(from: usize, kind: Kind, xs: &[f32]) -> Result<(), Refusal>
    requires { from < room_for_slice }
    ensures { fault_of result ≡ outside_from from (numbers_of kind xs.now) }
{
    for (i, x) in xs.iter().enumerate() {
        number_fault(from + i, kind, *x)?;
    }
    Ok(())
}

// A track record's five numbers, as listed. Of a row by value it is known that they are f32, which nothing else tells of a lent one.
#[tactic(auto, using(crate::proofs::F32::f32_of_elements, crate::proofs::Outside::in_order))]
pub fn track_fault(from: usize, row: [f32; 5]) -> Result<(), Refusal>
    requires { from < room_for_track }
    ensures fault { fault_of result ≡ outside_from from (track_numbers row) }
    ensures all { All IsF32 row }
{
    number_fault(from, Kind::Size, row[0])?;
    number_fault(from + 1, Kind::Limit, row[1])?;
    number_fault(from + 2, Kind::Size, row[2])?;
    number_fault(from + 3, Kind::Size, row[3])?;
    number_fault(from + 4, Kind::Size, row[4])
}

// Track records one after another.
pub fn tracks_fault(from: usize, tracks: &[[f32; 5]]) -> Result<(), Refusal>
    requires { from < room_for_slice }
    ensures fault { fault_of result ≡ outside_from from (tracks_numbers tracks.now) }
    ensures all { OnOk result (All (All IsF32) tracks.now) }
{
    for (i, row) in tracks.iter().enumerate() {
        track_fault(from + 5 * i, *row)?;
    }
    Ok(())
}
