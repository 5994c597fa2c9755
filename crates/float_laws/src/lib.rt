// The f32 numbers that the ported routines name, their sums, and what Rust's own minimum and maximum promise: this
// crate's specs/, with the laws in proofs/. It has no code.
#![tactic(auto)]
