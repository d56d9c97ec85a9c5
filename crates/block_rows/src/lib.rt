// What the crates that compare two blocks row by row share: what they add up, the OR and the differences of two rows, and a row of samples at positions that
// may be negative.
#![tactic(auto)]

mod at_edges;
mod blocks;
mod differences;
mod edges;

pub use at_edges::{EdgePair, compare_at_edges};
pub use blocks::{BlockPair, Compare, RowPair, compare_blocks};
pub use differences::{any_block, any_row, diff_row};
pub use edges::{edge_row, negative, row_start};

// A sample's row and column in its plane.
#[derive(Clone, Copy)]
pub struct Place {
    pub row: usize,
    pub column: usize,
}

// A sum, and the OR of what SAMPLE looks at.
#[derive(Clone, Copy)]
pub struct Totals {
    pub sum: u64,
    pub any: u16,
}
