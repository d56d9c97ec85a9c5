// SSD of two blocks of samples, after the Rust's enc/sad.rs: each public function tests, then compares row by row.
#![tactic(auto)]

mod edges;
mod rows;
mod ssd;

pub use ssd::{evce_ssd_16b, evce_ssd_16i};
