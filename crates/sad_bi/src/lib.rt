// SAD of bi-prediction values and a block of samples, after the Rust's enc/sad.rs: each public function tests, then compares row by row.
#![tactic(auto)]

mod blocks;
mod marks;
mod near;
mod sad_bi;

pub use sad_bi::{evce_sad_bi_16b, evce_sad_bi_16i};
