// Maximise.
ghost use Rattle.std.specs.Prelude.{◌≡◌, [], ◌∷◌, OnOk, Float};
ghost use Rattle.float_domain.specs.Domain.{outside_from};
ghost use Rattle.float_domain.specs.Answer.{fault_of};
ghost use Rattle.float_agreement.specs.Rust.{IsRustMin};
ghost use Rattle.float_agreement.specs.Inputs.{MaximiseInputs};
ghost use Rattle.floats.specs.Rule.{outcome, space_number, maximise_fault, maximise_call};
ghost use Rattle.floats.specs.Rust.{rust_maximise_call};
ghost use Rattle.floats.specs.Answer.{tracks_told};

use float_domain::{Kind, Refusal, lengths_fault, number_fault, slice_fault, tracks_fault};
use float_track::AvailableSpace;

// A space that is not definite has no float to test.
#[tactic(auto, unfolding(float_domain::specs::Domain::outside_from))]
pub(crate) fn space_fault(index: usize, space: AvailableSpace) -> Result<(), Refusal>
    ensures { fault_of result ≡ outside_from index (space_number space ∷ []) }
{
    match space {
        AvailableSpace::Definite(x) => number_fault(index, Kind::Size, x),
        AvailableSpace::MinContent | AvailableSpace::MaxContent => Ok(()),
    }
}

// What refuses the call. Where nothing does, its numbers are known to be f32 in their domains.
#[tactic(auto, using(crate::proofs::Order::in_order))]
fn maximise_fault(tracks: &[[f32; 5]], fits: &[f32], space: AvailableSpace) -> Result<(), Refusal>
    ensures fault { fault_of result ≡ maximise_fault tracks.now fits.now space }
    ensures inputs { OnOk result (MaximiseInputs tracks.now fits.now) }
{
    let n = tracks.len();
    lengths_fault(n, &[fits.len()])?;
    space_fault(0, space)?;
    tracks_fault(1, tracks)?;
    slice_fault(1 + 5 * n, Kind::Limit, fits)?;
    Ok(())
}

// The base sizes grow. A track without a fit-content limit has +infinity for it.
#[tactic(auto, using(crate::proofs::Calls::as_rust))]
pub fn maximise_tracks(
    tracks: &mut [[f32; 5]],
    fits: &[f32],
    space: AvailableSpace,
) -> Result<(), Refusal>
    ensures as_rule { outcome (tracks_told result) tracks.new ≡ maximise_call tracks.old fits.now space }
    ensures as_rust { (rust_min : Float → Float → Float) → IsRustMin rust_min → outcome (tracks_told result) tracks.new ≡ rust_maximise_call rust_min tracks.old fits.now space }
{
    maximise_fault(tracks, fits, space)?;
    float_maximise::maximise_tracks(tracks, fits, space);
    Ok(())
}
