// The words for lists and faults in which the rules are said, and the laws of loops, rounds, marks, sums and quotients that the proofs
// cite: they are this crate's specs/. It has no code.
#![tactic(auto)]
