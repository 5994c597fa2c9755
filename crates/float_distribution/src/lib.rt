// Distributing space up to limits: each pass shares it out by proportion, as far as the least room allows
// (specs/Distribution.antt names the Rust's float steps in the Rust's order).
#![tactic(auto)]

mod part;
mod parts;
mod pass;

pub use parts::Parts;
pub use pass::distribute_space_up_to_limits;
