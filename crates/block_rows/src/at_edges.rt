// A block inside its buffer, and one of a plane at a position that may be negative. Document 01, "Distortion".
// Differs from the Rust in: where neither position is negative, the block is compared where it stands.
ghost use Rattle.std.specs.Prelude.{◌≡◌, ◌||◌, ◌*◌, ◌≤◌, length, pos, is_none, IfSome};
ghost use Rattle.std.specs.Int.Signed.{lt_z};
ghost use Rattle.plane_tests.specs.Blocks.{cell};
ghost use Rattle.block_rows.specs.Totals.{RowsTotalled, BlocksTotalled, value_at};
ghost use Rattle.block_rows.specs.Edges.{AtEdges, Stands, edge_cell, row_at_edge};

use crate::Totals;
use crate::blocks::{BlockPair, Compare, RowPair};
use crate::edges::{edge_row, negative, row_start};

// A block of w by h inside its buffer, and one of a plane, of which each position may be negative.
#[derive(Drop)]
pub struct EdgePair<'a, A> {
    pub org: &'a [A],
    pub at: usize,
    pub stride: usize,
    pub reference: &'a [u16],
    pub ref_stride: usize,
    pub mv_x: i16,
    pub mv_y: i16,
    pub w: usize,
    pub h: usize,
    pub ghost inside: { AtEdges w h (length org.now) at stride (length reference.now) ref_stride mv_x mv_y },
}

impl<'a, A> EdgePair<'a, A> {
    // The same blocks where they stand, if neither position is negative.
    pub fn standing(&self) -> Option<BlockPair<'a, A>>
        ensures none { is_none result ≡ lt_z self.now.mv_x (pos 0) || lt_z self.now.mv_y (pos 0) }
        ensures some { IfSome result (λ p. Stands p.w p.h p.a.now p.a_at p.a_stride (cell 0 p.b.now p.b_at p.b_stride) self.now.w self.now.h self.now.org.now self.now.at self.now.stride (edge_cell self.now.reference.now self.now.ref_stride self.now.mv_x self.now.mv_y)) }
    {
        if negative(self.mv_x, self.mv_y) {
            return None;
        }
        let first = row_start(self.mv_x, self.mv_y, 0);
        Some(BlockPair {
            a: self.org,
            a_at: self.at,
            a_stride: self.stride,
            b: self.reference,
            b_at: first.row * self.ref_stride + first.column,
            b_stride: self.ref_stride,
            w: self.w,
            h: self.h,
        })
    }
}

// What a row, and one that is read at the columns from x on, add up to.
fn compare_edge_row<A, C: Compare<A>>(compare: C, a: &[A], row: &[u16], x: i16) -> Totals
    requires { length a.now ≤ 64 }
    ensures { RowsTotalled (64 * C.most) (C.adds compare) (C.marks compare) (length a.now) (value_at C.none a.now) (row_at_edge row.now x) result.sum result.any }
{
    let w = a.len();
    let mut line = [0u16; 64];
    edge_row(row, x, &mut line[..w]);
    compare.row(RowPair {
        a: a,
        b: &line[..w],
    })
}

// What a block and one at the edges add up to: a negative row reads as row 0.
pub fn compare_at_edges<A, C: Compare<A>>(compare: C, pair: &EdgePair<A>) -> Totals
    ensures { BlocksTotalled (64 * (64 * C.most)) (C.adds compare) (C.marks compare) pair.now.w pair.now.h (cell C.none pair.now.org.now pair.now.at pair.now.stride) (edge_cell pair.now.reference.now pair.now.ref_stride pair.now.mv_x pair.now.mv_y) result.sum result.any }
{
    let mut sum: u64 = 0;
    let mut any: u16 = 0;
    for j in 0..pair.h {
        let from = pair.at + j * pair.stride;
        let to = from + pair.w;
        let row = row_start(pair.mv_x, pair.mv_y, j as u16).row;
        let base = row * pair.ref_stride;
        let t = compare_edge_row(
            compare,
            &pair.org[from..to],
            &pair.reference[base..],
            pair.mv_x,
        );
        sum = sum + t.sum;
        any = any | t.any;
    }
    Totals { sum: sum, any: any }
}
