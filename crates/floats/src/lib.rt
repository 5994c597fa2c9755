// The float routines as calls (specs/Rule.antt is the rule, docs/PROMISES.md the promises in words): a call outside the
// domain is refused by 12, 14 or 13 and changes nothing; any other takes the Rust's float steps in the Rust's order.
//
// What is not refused answers a number (what is left, the size of an fr, a gutter's adjustment), the flushed track, or nothing, where the sizes
// stand in the lent tracks.
//
// The second clause of a contract says that Rust's own minimum and maximum give the same (specs/Rust.antt); of a call that takes neither, that its
// numbers are f32 in their domains.
#![tactic(auto)]

mod adjusting;
mod distributing;
mod flushing;
mod maximising;
mod searching;
mod stretching;

pub use adjusting::compute_alignment_gutter_adjustment;
pub use distributing::distribute_space_up_to_limits;
pub use float_domain::Refusal;
pub use float_gutters::AlignContent;
pub use float_track::{AvailableSpace, Track};
pub use flushing::{flush_planned_base_size_increases, flush_planned_growth_limit_increases};
pub use maximising::maximise_tracks;
pub use searching::find_size_of_fr;
pub use stretching::stretch_auto_tracks;
