// SATD, after the Rust's enc/sad.rs: the differences of two blocks, summed tile by tile.
#![tactic(auto)]

mod satd;
mod sums;
mod tiles;

pub use satd::evce_satd_16b;
