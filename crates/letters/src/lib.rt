// The lettered steps of the longer spans on the lines that an item spans: extra dots shared out by the fill or by factor, increases planned
// and applied (lines/specs/Rule.antt is the rule). Its functions are for the sizing: each says what it asks.
#![tactic(auto)]

mod batch;
mod by_factor;
mod contribution;
mod increase;
mod letter;
mod share;
mod totals;

pub use batch::{Batch, affects_some, share_in};
pub use contribution::{Span, beyond};
pub use increase::{apply, grow_bases, lay_over};
pub use letter::Letter;
pub use share::{Share, share_out};
pub use totals::{Totals, base_total, tally};
