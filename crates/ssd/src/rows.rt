// One row of two blocks: the squared differences that SSD adds up, and beside the sum what the test of SAMPLE looks at. Document 01,
// "Distortion".
// Differs from the Rust in: samples are tested by the OR of all that are read, compared once by the caller, so that this loop has no way out and
// becomes vector code. They are first cut to the depth's bits, which changes only what is refused.
ghost use Rattle.std.specs.Prelude.{◌≡◌, ◌*◌, ◌%◌, ◌<◌, ◌≤◌, length};
ghost use Rattle.std.specs.Int.Bits.{bit_or};
ghost use Rattle.std.proofs.Common.{rules};
ghost use Rattle.block_rows.specs.Totals.{RowsTotalled, BlocksTotalled, apart, value_at};
ghost use Rattle.plane_tests.specs.Blocks.{cell};
ghost use Rattle.ssd.specs.Squares.{squared, squared_low};

use block_rows::{BlockPair, Compare, RowPair, Totals, compare_blocks};

// By how many bits SSD divides a squared difference: 2 · (depth - 8) of a depth that is allowed, which the remainder doesn't change.
fn square_shift(depth: u8) -> u8
    ensures { result ≡ 2 * (depth % 8) }
{
    (depth % 8) * 2
}

// The square of a difference of samples that were cut to 14 bits.
fn square(p: u16, q: u16) -> u32
    requires { (p < 16384) × (q < 16384) }
    ensures { result ≡ apart p q * apart p q }
{
    let d = (p as i16) - (q as i16);
    let e = d as i32;
    (e * e) as u32
}

// What two samples that were cut add: the square, divided by 2^shift, which has 16 bits. Where a row has four samples, the code says so, and
// compilers add the rows of a block of four by four in one vector.
fn share(p: u16, q: u16, shift: u8, w: usize) -> u32
    requires numbers { (p < 16384) × (q < 16384) × (shift < 32) }
    requires square_fits { squared shift p q ≤ 65535 }
    ensures { result ≡ squared shift p q }
{
    let s = square(p, q) >> shift;
    if w == 4 { s & 65535 } else { s }
}

// Two blocks of samples of a depth that is allowed, compared by their squared differences.
#[derive(Clone, Copy)]
pub(crate) struct Ssd {
    pub(crate) depth: u8,
    ghost allowed: { (8 ≤ depth) × (depth ≤ 14) },
}

impl Compare<u16> for Ssd {
    ghost none = { 0 };

    ghost adds = { λ s. squared_low s.depth };

    ghost marks = { λ _. bit_or };

    ghost most = { 65535 };

    ghost bounded = { Prim.search rules };

    // The squared differences of two rows, each divided by 2^(2 · (depth - 8)), added. Samples are cut to the depth's bits: so each summand has 16
    // bits and a row's sum 32, and a sample that is changed by it is one that the caller refuses.
    #[inline(always)]
    fn row(self, rows: RowPair<u16>) -> Totals
        ensures { RowsTotalled (64 * 65535) (squared_low self.depth) bit_or (length rows.entry.a.now) (value_at 0 rows.entry.a.now) (value_at 0 rows.entry.b.now) result.sum result.any }
    {
        let depth = self.depth;
        let w = rows.a.len();
        let mask = (1u16 << depth) - 1;
        let shift = square_shift(depth);
        let mut sum: u32 = 0;
        let mut any: u16 = 0;
        for i in 0..w {
            let p = rows.a[i];
            let q = rows.b[i];
            any = any | (p | q);
            sum = sum + share(p & mask, q & mask, shift, w);
        }
        let all = sum as u64;
        Totals { sum: all, any }
    }
}

// What two blocks add up to. It is a function of its own: where compilers see that a second block is packed, they add rows of 8 and 16 worse.
#[inline(never)]
pub(crate) fn ssd_block(ssd: Ssd, pair: &BlockPair<u16>) -> Totals
    ensures { BlocksTotalled (64 * (64 * 65535)) (squared_low ssd.depth) bit_or pair.now.w pair.now.h (cell 0 pair.now.a.now pair.now.a_at pair.now.a_stride) (cell 0 pair.now.b.now pair.now.b_at pair.now.b_stride) result.sum result.any }
{
    compare_blocks(ssd, pair)
}
