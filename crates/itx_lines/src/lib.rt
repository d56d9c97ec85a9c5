// Both stages of the inverse transform, line by line, of sizes 16, 32 and 64. A line is gathered, its sums are made by halving, and they are stored.
#![tactic(auto)]

mod built_in;
mod gather;
mod line;
mod stage_one;
mod stage_two;
mod store;

pub use stage_one::itxb0;
pub use stage_two::itxb1;
