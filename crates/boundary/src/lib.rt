// Where the calls meet C: the record that a sub-block call takes, made of the numbers that C hands in; an answer as the paper's number, and what it
// holds besides into a caller's place.
#![tactic(auto)]

mod answers;
mod reports;
mod sub_blocks;

pub use answers::{answer_number, tell, tell_sub_block};
pub use reports::{TvReport, tell_report};
pub use sub_blocks::sub_block;
