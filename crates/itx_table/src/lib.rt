// The transform table as stored numbers, and its column sums.
#![tactic(auto)]

mod columns;
mod tm;
mod whole;

pub use columns::{columns32, columns64};
pub use tm::TM;
pub use whole::table;
