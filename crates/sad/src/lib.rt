// SAD of two blocks of samples, after the Rust's enc/sad.rs: each public function tests, then compares row by row.
#![tactic(auto)]

mod rows;
mod sad;

pub use sad::{evce_sad_16b, evce_sad_16i};
