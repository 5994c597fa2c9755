// Stretch.
ghost use Rattle.std.specs.Prelude.{◌≡◌, OnOk};
ghost use Rattle.laws.specs.Faults.{fine};
ghost use Rattle.float_domain.specs.Answer.{fault_of};
ghost use Rattle.float_agreement.specs.Inputs.{StretchInputs};
ghost use Rattle.floats.specs.Rule.{outcome, stretch_fault, stretch_call};
ghost use Rattle.floats.specs.Answer.{tracks_told};

use crate::adjusting::size_fault;
use crate::maximising::space_fault;
use float_domain::{Refusal, lengths_fault, tracks_fault};
use float_track::AvailableSpace;

// What refuses the call. Where nothing does, its numbers are known to be f32 in their domains.
#[tactic(auto, using(crate::proofs::Order::in_order))]
fn stretch_fault(
    tracks: &[[f32; 5]],
    autos: &[bool],
    minimum: Option<f32>,
    space: AvailableSpace,
) -> Result<(), Refusal>
    ensures fault { fault_of result ≡ stretch_fault tracks.now autos.now minimum space }
    ensures inputs { OnOk result (StretchInputs tracks.now autos.now minimum space) }
{
    lengths_fault(tracks.len(), &[autos.len()])?;
    size_fault(0, minimum)?;
    space_fault(1, space)?;
    tracks_fault(2, tracks)?;
    Ok(())
}

// The base sizes of the auto tracks grow.
pub fn stretch_auto_tracks(
    tracks: &mut [[f32; 5]],
    autos: &[bool],
    minimum: Option<f32>,
    space: AvailableSpace,
) -> Result<(), Refusal>
    ensures as_rule { outcome (tracks_told result) tracks.new ≡ stretch_call tracks.old autos.now minimum space }
    ensures stretch_inputs { stretch_fault tracks.old autos.now minimum space ≡ fine → StretchInputs tracks.old autos.now minimum space }
{
    stretch_fault(tracks, autos, minimum, space)?;
    float_stretch::stretch_auto_tracks(tracks, autos, minimum, space);
    Ok(())
}
