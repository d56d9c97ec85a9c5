// Two blocks, row by row. A block is a start and a stride in its buffer, so a packed block is one whose stride is its width. Document 01,
// "Distortion".
// Differs from the Rust in: the loop over rows is one for all distortions; the common widths are literals, for which compilers write straight
// vector code.
ghost use Rattle.std.specs.Prelude.{◌≡◌, ℕ, ◌*◌, ◌^◌, ◌<◌, ◌≤◌, length};
ghost use Rattle.plane_tests.specs.Blocks.{TwoBlocks, cell};
ghost use Rattle.block_rows.specs.Rows.{row_of};
ghost use Rattle.block_rows.specs.Totals.{RowsTotalled, BlocksTotalled, value_at};

use crate::Totals;

// Two rows of one length.
#[derive(Drop)]
pub struct RowPair<'a, A> {
    pub a: &'a [A],
    pub b: &'a [u16],
    pub ghost alike: { length b.now ≡ length a.now },
    pub ghost small: { length a.now ≤ 64 },
}

// Two blocks of w by h, of which each lies inside its buffer.
#[derive(Drop)]
pub struct BlockPair<'a, A> {
    pub a: &'a [A],
    pub a_at: usize,
    pub a_stride: usize,
    pub b: &'a [u16],
    pub b_at: usize,
    pub b_stride: usize,
    pub w: usize,
    pub h: usize,
    pub ghost inside: { TwoBlocks w h (length a.now) a_at a_stride (length b.now) b_at b_stride },
}

// How two blocks are compared: what the values at one place add to the sum, and what they leave for the test of SAMPLE.
pub trait Compare<A>: Copy {
    ghost none: { A };

    ghost adds: { Self → A → ℕ → ℕ };

    ghost marks: { Self → A → ℕ → ℕ };

    ghost most: { ℕ };

    // What two rows add up to.
    fn row(self, rows: RowPair<A>) -> Totals
        ensures { RowsTotalled (64 * most) (adds self) (marks self) (length rows.entry.a.now) (value_at none rows.entry.a.now) (value_at 0 rows.entry.b.now) result.sum result.any };

    ghost bounded: { most ≤ 2 ^ 20 };
}

impl<'a, A> BlockPair<'a, A> {
    // Row j of each.
    #[inline(always)]
    fn row(&self, j: usize, w: usize) -> RowPair<'a, A>
        requires within { j < self.now.h }
        requires width { w ≡ self.now.w }
        ensures first { result.a.now ≡ row_of self.now.a.now self.now.a_at self.now.a_stride j w }
        ensures second { result.b.now ≡ row_of self.now.b.now self.now.b_at self.now.b_stride j w }
    {
        let p = self.a_at + j * self.a_stride;
        let q = self.b_at + j * self.b_stride;
        let p_end = p + w;
        let q_end = q + w;
        RowPair {
            a: &self.a[p..p_end],
            b: &self.b[q..q_end],
        }
    }
}

// The first h rows of two blocks. The sides come as literals: so it is made anew for each of them.
#[inline(always)]
fn rows<A, C: Compare<A>>(compare: C, pair: &BlockPair<A>, w: usize, h: usize) -> Totals
    requires width { w ≡ pair.now.w }
    requires height { h ≤ pair.now.h }
    ensures { BlocksTotalled (64 * (64 * C.most)) (C.adds compare) (C.marks compare) w h (cell C.none pair.now.a.now pair.now.a_at pair.now.a_stride) (cell 0 pair.now.b.now pair.now.b_at pair.now.b_stride) result.sum result.any }
{
    let mut sum: u64 = 0;
    let mut any: u16 = 0;
    for j in 0..h {
        let t = compare.row(pair.row(j, w));
        sum = sum + t.sum;
        any = any | t.any;
    }
    Totals { sum: sum, any: any }
}

// What two blocks add up to. Inlined, so that a pair is no place in memory.
#[inline(always)]
pub fn compare_blocks<A, C: Compare<A>>(compare: C, pair: &BlockPair<A>) -> Totals
    ensures { BlocksTotalled (64 * (64 * C.most)) (C.adds compare) (C.marks compare) pair.now.w pair.now.h (cell C.none pair.now.a.now pair.now.a_at pair.now.a_stride) (cell 0 pair.now.b.now pair.now.b_at pair.now.b_stride) result.sum result.any }
{
    let h = pair.h;
    if pair.w == 4 && h == 4 {
        return rows(compare, pair, 4, 4);
    }
    // Not a case of the match: as one it makes the code of two columns longer.
    if pair.w == 1 {
        return rows(compare, pair, 1, h);
    }
    match pair.w {
        64 => rows(compare, pair, 64, h),
        32 => rows(compare, pair, 32, h),
        16 => rows(compare, pair, 16, h),
        8 => rows(compare, pair, 8, h),
        4 => rows(compare, pair, 4, h),
        2 => rows(compare, pair, 2, h),
        w => rows(compare, pair, w, h),
    }
}
