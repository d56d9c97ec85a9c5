// Rows of two blocks: the OR of their samples, by which a call tests them before it forms a difference, and their differences. A sample that is
// too large leaves a bit at or above the depth. Document 01, "Refusal numbers" and "Distortion".
// Differs from the Rust in: the Rust tests nothing. The loops have no way out, so that they become vector code: a caller hands on rows of one length, of
// which no sample is missing. A difference is formed in 32 bits, and fits 16 of samples that were tested.
ghost use Rattle.std.specs.Prelude.{◌≡◌, ◌*◌, pos, ◌-ℤ◌, length, get_or};
ghost use Rattle.std.specs.Int.Bits.{bit_or};
ghost use Rattle.integers.specs.Lists.{tab};
ghost use Rattle.integers.specs.Or.{or_n};
ghost use Rattle.block_rows.specs.Small.{wrapped, blocks_marks};
ghost use Rattle.block_rows.specs.Totals.{RowsTotalled, value_at};
ghost use Rattle.std.proofs.Common.{rules};

use crate::Totals;
use crate::blocks::{BlockPair, Compare, RowPair, compare_blocks};
use crate::edges::sample;

// The OR of two rows, as long as the first; a sample that the second lacks is 0.
pub fn any_row(a: &[u16], b: &[u16]) -> u16
    ensures { result ≡ or_n (length a.now) (λ i. bit_or (get_or a.now i 0) (get_or b.now i 0)) }
{
    let mut any: u16 = 0;
    for i in 0..a.len() {
        any = any | (a[i] | sample(b, i));
    }
    any
}

// First minus second. Compilers make one subtraction of 16 bits of it.
fn minus(p: u16, q: u16) -> i16
    ensures { result ≡ wrapped (pos p -ℤ pos q) }
{
    let d = (p as i32) - (q as i32);
    if d < -32768 {
        (d + 65536) as i16
    } else if 32767 < d {
        (d - 65536) as i16
    } else {
        d as i16
    }
}

// The differences of two rows, as many as have room; a sample that a row lacks is 0.
pub fn diff_row(a: &[u16], b: &[u16], out: &mut [i16])
    ensures { out.new ≡ tab (length out.old) (λ i. wrapped (pos (get_or a.now i 0) -ℤ pos (get_or b.now i 0))) }
{
    for i in 0..out.len() {
        out[i] = minus(sample(a, i), sample(b, i));
    }
}

// Two blocks of samples, of which nothing is added: their marks alone.
#[derive(Clone, Copy)]
struct Marks;

impl Compare<u16> for Marks {
    ghost none = { 0 };

    ghost adds = { λ _ _ _. 0 };

    ghost marks = { λ _. bit_or };

    ghost most = { 0 };

    ghost bounded = { Prim.search rules };

    fn row(self, rows: RowPair<u16>) -> Totals
        ensures { RowsTotalled (64 * 0) (λ _ _. 0) bit_or (length rows.entry.a.now) (value_at 0 rows.entry.a.now) (value_at 0 rows.entry.b.now) result.sum result.any }
    {
        Totals {
            sum: 0,
            any: any_row(rows.a, rows.b),
        }
    }
}

// The OR of all samples of two blocks. It is inlined: called, it would read the pair from memory, which a block of 4 by 4 pays for.
#[inline(always)]
pub fn any_block(pair: &BlockPair<u16>) -> u16
    ensures { result ≡ blocks_marks pair.now.w pair.now.h pair.now.a.now pair.now.a_at pair.now.a_stride pair.now.b.now pair.now.b_at pair.now.b_stride }
{
    compare_blocks(Marks, pair).any
}
