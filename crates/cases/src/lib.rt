// Cases in a text file: reading them, counting those that agree, and printing how many do. A program that runs cases adds the call
// that it tries and the comparison. What reads the text itself is the crate texts, whose words are handed on.
#![tactic(auto)]

mod compare;
mod file;
mod program;
mod report;
mod tally;
mod walk;
mod wanted;

pub use compare::same;
pub use file::{buffer, load};
pub use program::run;
pub use report::print;
pub use tally::{First, Tally};
pub use texts::{Fault, Stop, Text};
pub use walk::count;
pub use wanted::{Answer, Refused, Wanted, read_wanted, wanted_of};
