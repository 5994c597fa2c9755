// Steps 2 and 3 on the working lines: items in one track, then longer spans batch by batch (lines/specs/Rule.antt is the rule). Its
// functions are for the sizing: each says what it asks.
#![tactic(auto)]

mod batch;
mod one_track;

pub use batch::{batched, longer};
pub use one_track::singles;
