// The library for C and Rust: each call as an exported function on slices and numbers.
// A slice passes as a pointer and a length. Every export answers the paper's number, 0 for accepted, alone or in a report.
#![tactic(auto)]

mod distortion;
mod reports;
mod sub_blocks;
mod transform;
