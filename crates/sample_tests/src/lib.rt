// SAMPLE, as the distortion calls test it: once, by the OR of all that their loops read.
#![tactic(auto)]

mod tests;

pub use tests::bad_samples;
