// The inverse transform, as its callers use it: each stage as one call that picks the shape for its size, and both stages on one area.
#![tactic(auto)]

mod both;
mod stage_one;
mod stage_two;

pub use both::both_stages;
pub use stage_one::itxb0;
pub use stage_two::itxb1;
