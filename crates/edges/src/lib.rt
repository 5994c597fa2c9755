// Which track a dot lies on: the left edges of a board's tracks, made of its places, asked, and brought up to date (specs/Rule.antt is the
// rule, docs/PROMISES.md the promises in words). Any number of tracks; a list of edges has one entry more. Places of refusals are
// indexes, of a track or of an entry, and no records.
#![tactic(auto)]

mod checking;
mod looking;
mod making;
mod refusal;
mod updating;

pub use looking::lookup;
pub use making::make;
pub use refusal::Refusal;
pub use updating::update;
