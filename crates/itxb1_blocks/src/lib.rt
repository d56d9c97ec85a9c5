// Stage two of the inverse transform, 16 lines at a time: sizes 32 and 64, of 16 lines or more.
#![tactic(auto)]

mod halves;
mod stage_two;
mod tail;

pub use stage_two::itxb1;
