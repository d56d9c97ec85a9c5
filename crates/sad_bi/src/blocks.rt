// Bi-prediction values against samples, row by row and block by block. Document 01, "Distortion".
// Differs from the Rust in: a difference is formed in 32 bits, where it can't overflow; a value below -16,384 leaves a mark in the OR that no
// depth holds, so that one test at the end finds it.
ghost use Rattle.std.specs.Prelude.{◌≡◌, ◌*◌, ◌≤◌, length, pos};
ghost use Rattle.std.proofs.Common.{rules};
ghost use Rattle.plane_tests.specs.Blocks.{cell};
ghost use Rattle.block_rows.specs.Edges.{edge_cell};
ghost use Rattle.block_rows.specs.Totals.{RowsTotalled, value_at};
ghost use Rattle.sad_bi.specs.Totals.{BiCounted, apart_bi, mark_bi};

use block_rows::{BlockPair, Compare, EdgePair, RowPair, Totals, compare_at_edges, compare_blocks};

// How far a value and a sample are apart: at most 32768 + 65535.
fn distance(v: i16, q: u16) -> u32
    ensures { (result ≡ apart_bi v q) × (result ≤ 98303) }
{
    (v as i32).abs_diff(q as i32)
}

// Bi-prediction values and a block of samples, compared by their absolute differences.
#[derive(Clone, Copy)]
pub(crate) struct SadBi;

impl Compare<i16> for SadBi {
    ghost none = { pos 0 };

    ghost adds = { λ _. apart_bi };

    ghost marks = { λ _. mark_bi };

    ghost most = { 98303 };

    ghost bounded = { Prim.search rules };

    // The absolute differences of two rows, added.
    #[inline(always)]
    fn row(self, rows: RowPair<i16>) -> Totals
        ensures { RowsTotalled (64 * 98303) apart_bi mark_bi (length rows.entry.a.now) (value_at (pos 0) rows.entry.a.now) (value_at 0 rows.entry.b.now) result.sum result.any }
    {
        let w = rows.a.len();
        let mut sum: u32 = 0;
        let mut any: u16 = 0;
        for i in 0..w {
            let v = rows.a[i];
            let q = rows.b[i];
            any = any | (crate::marks::low_mark(v) | q);
            sum = sum + distance(v, q);
        }
        Totals {
            sum: sum as u64,
            any,
        }
    }
}

// What two blocks add up to, of which the first is packed. The sum is theirs where no mark has more than 14 bits; else the caller refuses.
pub(crate) fn total(pair: &BlockPair<i16>) -> Totals
    requires { (pair.now.a_at ≡ 0) × (pair.now.a_stride ≡ pair.now.w) }
    ensures { BiCounted pair.now.w pair.now.h (cell (pos 0) pair.now.a.now pair.now.a_at pair.now.a_stride) (cell 0 pair.now.b.now pair.now.b_at pair.now.b_stride) result.sum result.any }
{
    if pair.b_stride == pair.w {
        let size = pair.w * pair.h;
        if size % 512 == 0 {
            return crate::near::runs(pair.a, pair.b, pair.b_at, 256, size / 512);
        }
        if size % 64 == 0 {
            return crate::near::runs(pair.a, pair.b, pair.b_at, 32, size / 64);
        }
    }
    compare_blocks(SadBi, pair)
}

// The same of a packed block and one at the edges: where neither position is negative, it is compared where it stands.
pub(crate) fn total_at_edges(pair: &EdgePair<i16>) -> Totals
    requires { (pair.now.at ≡ 0) × (pair.now.stride ≡ pair.now.w) }
    ensures { BiCounted pair.now.w pair.now.h (cell (pos 0) pair.now.org.now pair.now.at pair.now.stride) (edge_cell pair.now.reference.now pair.now.ref_stride pair.now.mv_x pair.now.mv_y) result.sum result.any }
{
    match pair.standing() {
        Some(blocks) => total(&blocks),
        None => compare_at_edges(SadBi, pair),
    }
}
