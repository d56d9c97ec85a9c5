// Both blocks packed: runs of n and again n values, whatever their rows. Document 01, "Distortion".
// Differs from the Rust in: a difference is formed in 16 bits of values that were cut to what 16 bits can subtract; whether anything was cut, the
// marks tell.
ghost use Rattle.std.specs.Prelude.{◌≡◌, ◌+◌, ◌*◌, ◌≤◌, length, pos, bit_or};
ghost use Rattle.sad_bi.specs.Marks.{low_mark_of};
ghost use Rattle.plane_tests.specs.Blocks.{cell};
ghost use Rattle.block_rows.specs.Totals.{RowsTotalled, BlocksTotalled, value_at};
ghost use Rattle.sad_bi.specs.Totals.{mark_bi};
ghost use Rattle.sad_bi.specs.Near.{raise, near_bi, TwoRuns, InRuns};

use block_rows::Totals;

// A value that is too low counts as -16,384, so that 16 bits hold its difference from a sample of 14 bits.
fn raised(v: i16) -> i16
    ensures { result ≡ raise v }
{
    if v < -16384 { -16384 } else { v }
}

// The lower of two values: it is too low where either is.
fn lower(u: i16, v: i16) -> i16
    ensures { low_mark_of result ≡ bit_or (low_mark_of u) (low_mark_of v) }
{
    if u < v { u } else { v }
}

// How far a value and a sample are apart, both cut.
fn near(v: i16, q: u16) -> u16
    ensures { (result ≡ near_bi v q) × (result ≤ 32767) }
{
    let d = raised(v) - ((q & 16383) as i16);
    d.unsigned_abs()
}

// The absolute differences of n values and of the n after them, added in pairs, which 16 bits hold. So that each vector holds as many values as
// it can, no sum of this loop has more: the pairs' high bytes are added, and beside them the pairs with what wraps lost. What that sum has more
// than the high bytes' is that of the low bytes, which 16 bits hold.
fn pairs(a: &[i16], b: &[u16], n: usize) -> Totals
    requires { TwoRuns n a.now b.now }
    ensures { RowsTotalled 16842495 near_bi mark_bi (n + n) (value_at (pos 0) a.now) (value_at 0 b.now) result.sum result.any }
{
    let mut high: u16 = 0;
    let mut both: u16 = 0;
    let mut any: u16 = 0;
    let mut low: i16 = 0;
    for i in 0..n {
        let v = a[i];
        let q = b[i];
        let u = a[n + i];
        let p = b[n + i];
        any = any | (q | p);
        low = lower(u, lower(v, low));
        let e = near(v, q) + near(u, p);
        high = high + (e >> 8);
        both = std::num::wrapping_add_u16(both, e);
    }
    let last = std::num::wrapping_sub_u16(both, high << 8);
    let sum = (high as u64) * 256 + (last as u64);
    let all = any | crate::marks::low_mark(low);
    Totals { sum: sum, any: all }
}

// The same of all runs, one after another.
pub(crate) fn runs(a: &[i16], b: &[u16], b_at: usize, n: usize, count: usize) -> Totals
    requires { InRuns n count (length a.now) (length b.now) b_at }
    ensures { BlocksTotalled (64 * 16842495) near_bi mark_bi (n + n) count (cell (pos 0) a.now 0 (n + n)) (cell 0 b.now b_at (n + n)) result.sum result.any }
{
    let w = n + n;
    let mut sum: u64 = 0;
    let mut any: u16 = 0;
    for j in 0..count {
        let p = j * w;
        let q = b_at + p;
        let p_end = p + w;
        let q_end = q + w;
        let t = pairs(&a[p..p_end], &b[q..q_end], n);
        sum = sum + t.sum;
        any = any | t.any;
    }
    Totals { sum: sum, any: any }
}
