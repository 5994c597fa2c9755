// The gutter adjustment of an alignment. The estimate of each track may be absent.
ghost use Rattle.std.specs.Prelude.{◌≡◌, [], ◌∷◌, OnOk, Float};
ghost use Rattle.float_domain.specs.Domain.{outside_from};
ghost use Rattle.float_domain.specs.Answer.{fault_of};
ghost use Rattle.float_agreement.specs.Rust.{IsRustMax};
ghost use Rattle.float_agreement.specs.Inputs.{GutterInputs};
ghost use Rattle.floats.specs.Rule.{size_number, is_gutter_count, gutter_fault, gutter_call};
ghost use Rattle.floats.specs.Rust.{rust_gutter_call};
ghost use Rattle.floats.specs.Answer.{number_told};

use float_domain::{Kind, Refusal, lengths_fault, number_fault, slice_fault};
use float_gutters::AlignContent;

// A size that may be absent; where it is, there is no float to test.
#[tactic(auto, unfolding(float_domain::specs::Domain::outside_from))]
pub(crate) fn size_fault(index: usize, size: Option<f32>) -> Result<(), Refusal>
    ensures { fault_of result ≡ outside_from index (size_number size ∷ []) }
{
    match size {
        Some(x) => number_fault(index, Kind::Size, x),
        None => Ok(()),
    }
}

// The Rust takes 3 off the count and halves the rest: so 3, and even counts but 0, are out.
fn is_gutter_count(count: usize) -> bool
    ensures { result ≡ is_gutter_count count }
{
    count != 3 && (count == 0 || count % 2 == 1)
}

// What refuses the call. Where nothing does, its numbers are known to be f32 in their domains.
#[tactic(auto, using(crate::proofs::Order::in_order))]
fn gutter_fault(inner: Option<f32>, known: &[bool], estimates: &[f32]) -> Result<(), Refusal>
    ensures fault { fault_of result ≡ gutter_fault inner known.now estimates.now }
    ensures inputs { OnOk result (GutterInputs inner known.now estimates.now) }
{
    lengths_fault(known.len(), &[estimates.len()])?;
    if !is_gutter_count(known.len()) {
        return Err(Refusal::Gutters);
    }
    size_fault(0, inner)?;
    slice_fault(1, Kind::Size, estimates)?;
    Ok(())
}

#[tactic(auto, using(crate::proofs::Calls::as_rust))]
pub fn compute_alignment_gutter_adjustment(
    alignment: AlignContent,
    inner: Option<f32>,
    known: &[bool],
    estimates: &[f32],
) -> Result<f32, Refusal>
    ensures as_rule { number_told result ≡ gutter_call alignment inner known.now estimates.now }
    ensures as_rust { (rust_max : Float → Float → Float) → IsRustMax rust_max → number_told result ≡ rust_gutter_call rust_max alignment inner known.now estimates.now }
{
    gutter_fault(inner, known, estimates)?;
    Ok(float_gutters::compute_alignment_gutter_adjustment(alignment, inner, known, estimates))
}
