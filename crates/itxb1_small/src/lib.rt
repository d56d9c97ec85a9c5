// Stage two of sizes 2, 4 and 8, on any number of lines, by straight code, line after line. A call answers whether it was done: one of another
// size, and one that breaks a test, is left alone.
#![tactic(auto)]

mod eight;
mod stage_two;
mod store;
mod wide;

pub use stage_two::itxb1;
