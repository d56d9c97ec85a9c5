// What is known of a job and of a sub-block before anything is done: the job of each component; whether a test is broken, which, and in which
// component; and what a refused one reports. A function here looks at no buffer, only at its length. Document 01, "Numbers of the domain" and "Refusal
// numbers, in the order they are tested"; document 02, One.
#![tactic(auto)]

mod components;
mod jobs;
mod pairs;
mod sub_blocks;

pub use components::{chroma_job, luma_job};
pub use jobs::{job_report, of_job};
pub use sub_blocks::{of_sub_block, sub_block_report};
