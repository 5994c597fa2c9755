// The domain of the ported routines: which floats they take, and what refuses a call (specs/Domain.antt is the rule).
//
// Every float that is handed over is tested, whether or not the routine will read it; an absent number has none to test.
#![tactic(auto)]

mod kind;
mod lengths;
mod numbers;
mod refusal;

pub use kind::Kind;
pub use lengths::lengths_fault;
pub use numbers::{number_fault, slice_fault, track_fault, tracks_fault};
pub use refusal::Refusal;
