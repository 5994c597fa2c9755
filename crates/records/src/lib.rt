// The records of a sheet, part by part: numbers in bytes, tags, and what refuses a sheet (specs/Rule.antt is the rule). Its functions
// are for the rows and the sheet: each says what it asks.
#![tactic(auto)]

pub mod numbers;
mod refusal;
pub mod tags;

pub use refusal::{Refusal, unless};
