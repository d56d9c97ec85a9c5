// The tiles of SATD, each a total function of its block of differences: 8 by 8, 4 by 4, 2 by 2.
#![tactic(auto)]

mod had;
mod line;
mod passes;

pub use had::{evc_had_2x2, evc_had_4x4, evc_had_8x8};
