// What a sheet says of its space and of a track, as types (specs/Kinds.antt), and what the sizing reads of them (specs/Rule.antt). They
// know of rows, and of no byte.
#![tactic(auto)]

mod axis;
mod space;
mod track;

pub use axis::Axis;
pub use space::{Space, SpaceRow};
pub use track::{SheetMaximum, SheetMinimum, SheetTrack};
