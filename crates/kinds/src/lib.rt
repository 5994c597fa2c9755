// The kinds of a board that the sizing reads, each with the limits that bound it. They know of rows, and of no byte (specs/Kinds.antt).
#![tactic(auto)]

pub mod amount;
mod constraint;
mod item;
mod track;

pub use constraint::Constraint;
pub use item::{ContributionKind, Item};
pub use track::{Maximum, Minimum, Track};
