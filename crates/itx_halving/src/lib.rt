// What the crates that do a stage share: its tests, which calls a crate takes, stage two's rounding number, and an answer as a value. The theory
// of both stages, the sums of a line by halving and the lines of a buffer, has its definitions in specs/ and its laws in proofs/.
#![tactic(auto)]

mod answer;
mod guard;
mod round;
mod tests;

pub use answer::by_value;
pub use guard::takes;
pub use round::{Tail, rounding};
pub use tests::{stage_one, stage_two};
