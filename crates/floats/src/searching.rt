// The size of an fr.
ghost use Rattle.std.specs.Prelude.{◌≡◌, OnOk, Float};
ghost use Rattle.float_domain.specs.Answer.{fault_of};
ghost use Rattle.float_agreement.specs.Rust.{IsRustMax};
ghost use Rattle.float_agreement.specs.Inputs.{FrInputs};
ghost use Rattle.floats.specs.Rule.{fr_fault, fr_call};
ghost use Rattle.floats.specs.Rust.{rust_fr_call};
ghost use Rattle.floats.specs.Answer.{number_told};

use float_domain::{Kind, Refusal, lengths_fault, number_fault, slice_fault, tracks_fault};
use float_fr_size::Flexes;

// What refuses the call. Where nothing does, its numbers are known to be f32 in their domains.
#[tactic(auto, using(crate::proofs::Order::in_order))]
fn fr_fault(
    tracks: &[[f32; 5]],
    flexible: &[bool],
    factors: &[f32],
    space: f32,
) -> Result<(), Refusal>
    ensures fault { fault_of result ≡ fr_fault tracks.now flexible.now factors.now space }
    ensures inputs { OnOk result (FrInputs tracks.now flexible.now factors.now space) }
{
    let n = tracks.len();
    lengths_fault(n, &[flexible.len(), factors.len()])?;
    number_fault(0, Kind::Size, space)?;
    tracks_fault(1, tracks)?;
    slice_fault(1 + 5 * n, Kind::Factor, factors)?;
    Ok(())
}

#[tactic(auto, using(crate::proofs::Calls::as_rust))]
pub fn find_size_of_fr(
    tracks: &[[f32; 5]],
    flexible: &[bool],
    factors: &[f32],
    space: f32,
) -> Result<f32, Refusal>
    ensures as_rule { number_told result ≡ fr_call tracks.now flexible.now factors.now space }
    ensures as_rust { (rust_max : Float → Float → Float) → IsRustMax rust_max → number_told result ≡ rust_fr_call rust_max tracks.now flexible.now factors.now space }
{
    fr_fault(tracks, flexible, factors, space)?;
    Ok(Flexes::new(tracks, flexible, factors).find_size_of_fr(space))
}
