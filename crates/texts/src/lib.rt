// Reading a text: numbers, marks, and lists of them or of bytes, each from where the text stands to the place behind it.
#![tactic(auto)]

mod fault;
mod hex;
mod lists;
mod numbers;
mod runs;
mod text;

pub use fault::{Fault, Stop};
pub use runs::Run;
pub use text::Text;
