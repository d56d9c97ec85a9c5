// One row of two blocks: the absolute differences, added, undivided, and beside the sum what the test of SAMPLE looks at. Document 01,
// "Distortion".
// Differs from the Rust in: samples are tested by the OR of all that are read, compared once by the caller, so that these loops have no way out
// and become vector code.
ghost use Rattle.std.specs.Prelude.{◌≡◌, ◌*◌, ◌≤◌, length};
ghost use Rattle.std.specs.Int.Bits.{bit_or};
ghost use Rattle.std.proofs.Common.{rules};
ghost use Rattle.block_rows.specs.Totals.{RowsTotalled, apart, value_at};

use block_rows::{Compare, RowPair, Totals};

// How far two samples are apart, by the type that suits the width of a row: 16 bits make vectors of eight, of which a row of four fills one half.
fn gap(p: u16, q: u16, w: usize) -> u32
    ensures value { result ≡ apart p q }
    ensures bound { result ≤ 65535 }
{
    if w == 4 {
        ((p as i32) - (q as i32)).unsigned_abs()
    } else {
        p.abs_diff(q) as u32
    }
}

// Two blocks of samples, compared by their absolute differences.
#[derive(Clone, Copy)]
pub(crate) struct Sad;

impl Compare<u16> for Sad {
    ghost none = { 0 };

    ghost adds = { λ _. apart };

    ghost marks = { λ _. bit_or };

    ghost most = { 65535 };

    ghost bounded = { Prim.search rules };

    // The absolute differences of two rows, added.
    #[inline(always)]
    fn row(self, rows: RowPair<u16>) -> Totals
        ensures { RowsTotalled (64 * 65535) apart bit_or (length rows.entry.a.now) (value_at 0 rows.entry.a.now) (value_at 0 rows.entry.b.now) result.sum result.any }
    {
        let w = rows.a.len();
        let mut sum: u32 = 0;
        let mut any: u16 = 0;
        for i in 0..w {
            let p = rows.a[i];
            let q = rows.b[i];
            any = any | (p | q);
            sum = sum + gap(p, q, w);
        }
        Totals {
            sum: sum as u64,
            any,
        }
    }
}
