// Stage one of sizes 2, 4 and 8, on any number of lines, by straight code, line after line. A call answers whether it was done: one of another
// size, and one that breaks a test, is left alone.
#![tactic(auto)]

mod narrow;
mod stage_one;
mod store;

pub use stage_one::itxb0;
