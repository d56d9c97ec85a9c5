// Two blocks at positions that may be negative. Document 01, "Distortion".
// Differs from the Rust in: where neither position is negative, the blocks are compared where they stand.
ghost use Rattle.std.specs.Prelude.{◌*◌, ◌≤◌, length, bit_or};
ghost use Rattle.block_rows.specs.Totals.{RowsTotalled, BlocksTotalled};
ghost use Rattle.block_rows.specs.Edges.{EdgesIn, edge_cell, row_at_edge};
ghost use Rattle.ssd.specs.Squares.{squared_low};

use crate::rows::{Ssd, ssd_block};
use block_rows::{BlockPair, Compare, RowPair, Totals};

// Blocks of w by h of two planes, at one position, which may be negative.
#[derive(Drop)]
pub(crate) struct TwoEdges<'a> {
    pub(crate) one: &'a [u16],
    pub(crate) stride1: usize,
    pub(crate) two: &'a [u16],
    pub(crate) stride2: usize,
    pub(crate) x: i16,
    pub(crate) y: i16,
    pub(crate) w: usize,
    pub(crate) h: usize,
    ghost first: { EdgesIn (length one.now) stride1 x y w h },
    ghost second: { EdgesIn (length two.now) stride2 x y w h },
}

// Two rows that are read at the columns from x on.
fn edge_row(ssd: Ssd, a: &[u16], b: &[u16], x: i16, w: usize) -> Totals
    requires { w ≤ 64 }
    ensures { RowsTotalled (64 * 65535) (squared_low ssd.depth) bit_or w (row_at_edge a.now x) (row_at_edge b.now x) result.sum result.any }
{
    let mut one = [0u16; 64];
    let mut two = [0u16; 64];
    block_rows::edge_row(a, x, &mut one[..w]);
    block_rows::edge_row(b, x, &mut two[..w]);
    ssd.row(RowPair {
        a: &one[..w],
        b: &two[..w],
    })
}

// Two blocks at the edges: a negative row reads as row 0.
fn edge_rows(ssd: Ssd, pair: &TwoEdges) -> Totals
    ensures { BlocksTotalled (64 * (64 * 65535)) (squared_low ssd.depth) bit_or pair.now.w pair.now.h (edge_cell pair.now.one.now pair.now.stride1 pair.now.x pair.now.y) (edge_cell pair.now.two.now pair.now.stride2 pair.now.x pair.now.y) result.sum result.any }
{
    let mut sum: u64 = 0;
    let mut any: u16 = 0;
    for j in 0..pair.h {
        let row = block_rows::row_start(pair.x, pair.y, j as u16).row;
        let p = row * pair.stride1;
        let q = row * pair.stride2;
        let t = edge_row(ssd, &pair.one[p..], &pair.two[q..], pair.x, pair.w);
        sum = sum + t.sum;
        any = any | t.any;
    }
    Totals { sum, any }
}

// The same; where neither position is negative, the blocks are compared where they stand.
pub(crate) fn total(ssd: Ssd, pair: &TwoEdges) -> Totals
    ensures { BlocksTotalled (64 * (64 * 65535)) (squared_low ssd.depth) bit_or pair.now.w pair.now.h (edge_cell pair.now.one.now pair.now.stride1 pair.now.x pair.now.y) (edge_cell pair.now.two.now pair.now.stride2 pair.now.x pair.now.y) result.sum result.any }
{
    if block_rows::negative(pair.x, pair.y) {
        return edge_rows(ssd, pair);
    }
    let first = block_rows::row_start(pair.x, pair.y, 0);
    ssd_block(
        ssd,
        &BlockPair {
            a: pair.one,
            a_at: first.row * pair.stride1 + first.column,
            a_stride: pair.stride1,
            b: pair.two,
            b_at: first.row * pair.stride2 + first.column,
            b_stride: pair.stride2,
            w: pair.w,
            h: pair.h,
        },
    )
}
