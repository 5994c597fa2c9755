// The distribution of space up to limits.
ghost use Rattle.std.specs.Prelude.{◌≡◌, OnOk, Float};
ghost use Rattle.float_domain.specs.Answer.{fault_of};
ghost use Rattle.float_agreement.specs.Rust.{IsRustMin};
ghost use Rattle.float_agreement.specs.Inputs.{DistributionInputs};
ghost use Rattle.floats.specs.Rule.{outcome, distribution_fault, distribution_call};
ghost use Rattle.floats.specs.Rust.{rust_distribution_call};
ghost use Rattle.floats.specs.Answer.{number_told};

use float_distribution::Parts;
use float_domain::{Kind, Refusal, lengths_fault, number_fault, slice_fault, tracks_fault};

// What refuses the call. Where nothing does, its numbers are known to be f32 in their domains.
#[tactic(auto, using(crate::proofs::Order::in_order))]
fn distribution_fault(
    space: f32,
    tracks: &[[f32; 5]],
    affected: &[bool],
    proportions: &[f32],
    sizes: &[f32],
    limits: &[f32],
) -> Result<(), Refusal>
    ensures fault { fault_of result ≡ distribution_fault space tracks.now affected.now proportions.now sizes.now limits.now }
    ensures inputs { OnOk result (DistributionInputs space tracks.now affected.now proportions.now sizes.now limits.now) }
{
    let n = tracks.len();
    lengths_fault(
        n,
        &[affected.len(), proportions.len(), sizes.len(), limits.len()],
    )?;
    number_fault(0, Kind::Size, space)?;
    tracks_fault(1, tracks)?;
    slice_fault(1 + 5 * n, Kind::Proportion, proportions)?;
    slice_fault(1 + 6 * n, Kind::Size, sizes)?;
    slice_fault(1 + 7 * n, Kind::Limit, limits)?;
    Ok(())
}

// The space that is left. The tracks' incurred increases grow.
#[tactic(auto, using(crate::proofs::Calls::as_rust))]
pub fn distribute_space_up_to_limits(
    space: f32,
    tracks: &mut [[f32; 5]],
    affected: &[bool],
    proportions: &[f32],
    sizes: &[f32],
    limits: &[f32],
) -> Result<f32, Refusal>
    ensures as_rule { outcome (number_told result) tracks.new ≡ distribution_call space tracks.old affected.now proportions.now sizes.now limits.now }
    ensures as_rust { (rust_min : Float → Float → Float) → IsRustMin rust_min → outcome (number_told result) tracks.new ≡ rust_distribution_call rust_min space tracks.old affected.now proportions.now sizes.now limits.now }
{
    distribution_fault(space, tracks, affected, proportions, sizes, limits)?;
    let parts = Parts::new(affected, proportions, sizes, limits);
    Ok(float_distribution::distribute_space_up_to_limits(space, tracks, &parts))
}
