// What the distortion calls test before they read a sample: sides, depth, and that all that is to be read lies inside its buffer.
#![tactic(auto)]

mod tests;

pub use tests::{
    bad_depth, bad_even_sides, bad_logs, bad_plane, bad_sides, outside_edges, outside_plane,
};
