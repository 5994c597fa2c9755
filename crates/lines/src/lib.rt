// The lines: tracks at work, and what each step makes of them (specs/Rule.antt is the rule of the sizing).
#![tactic(auto)]

mod batches;
mod chain;
mod fr;
mod limit;
mod line;
mod measured;
mod passes;

pub use batches::Batches;
pub use chain::Chain;
pub use fr::Fr;
pub use limit::limit_with;
pub use line::Line;
pub use measured::Measured;
pub use passes::{bases_to_limits, fill_missing, settle, settled, start};
