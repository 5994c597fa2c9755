// The build paper's marked examples: one table in this crate's specs/, one claim over it in its proofs/. It has no code.
#![tactic(auto)]
