// In the domain the ported routines give what the Rust's own forms give, `f32::min`, `f32::max` and `min_by(total_cmp)`:
// this crate's specs/ write those forms down, with the proofs in proofs/. It has no code.
#![tactic(auto)]
