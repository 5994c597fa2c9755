// A float track by value, the space it is sized in, and the sum of the base sizes (specs/Track.antt, specs/Space.antt).
//
// The lent store holds a track as a row of five floats, in the record's order; the infinitely growable mark stands beside
// a row, since no routine over rows reads or writes it.
#![tactic(auto)]

mod bits;
mod least;
mod space;
mod track;
mod used;

pub use bits::{INFINITY_BITS, SIGN_BIT};
pub use least::{f32_max, f32_min};
pub use space::AvailableSpace;
pub use track::Track;
pub use used::used_space;
