// The sums of 16 lines side by side, by halving, for the sizes 16, 32 and 64.
#![tactic(auto)]

mod base;
mod lanes;
mod levels;

pub use levels::sums;
