// DIFF, after the Rust's enc/sad.rs: the differences of two blocks, written.
#![tactic(auto)]

mod diff;

pub use diff::evce_diff_16b;
