// Stage one of the inverse transform, 16 lines at a time: sizes 16, 32 and 64, of 16 lines or more.
#![tactic(auto)]

mod gather;
mod stage_one;
mod store;

pub use stage_one::itxb0;
