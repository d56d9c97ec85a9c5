// The sums of line j, stored as one run of the output: the tails of the Rust's `itx_pb16b0` .. `itx_pb64b1`. Document 01, "The two stages".
ghost use Rattle.std.specs.Prelude.{◌≡◌, ◌+◌, ◌*◌, ◌≤◌, length, get_or, pos, nat_abs};
ghost use Rattle.integers.specs.Z.{clip32};
ghost use Rattle.itx_halving.specs.Lines.{shifted, Bounded, Next};

use itx_halving::Tail;

// Stage one: clipped to 32 bits.
pub(crate) fn store_i32(e: &[i64], dst: &mut [i32], n: usize, j: usize)
    requires { (n ≤ length e.now) × (j * n + n ≤ length dst.old) }
    ensures { Next dst.old dst.new (j * n) n (λ k. clip32 (get_or e.now k (pos 0))) }
{
    for k in 0..n {
        dst[j * n + k] = integers::clip32(e[k]);
    }
}

// A sum of stage two, rounded, divided by 2^shift toward minus infinity, and clipped to 16 bits.
fn rounded(v: i64, r: Tail) -> i16
    requires { nat_abs v ≤ 17592186044416 }
    ensures { result ≡ shifted r.shift v }
{
    integers::clip16((v + r.add) >> r.shift)
}

// Stage two.
pub(crate) fn store_i16(e: &[i64], dst: &mut [i16], n: usize, j: usize, r: Tail)
    requires { Bounded e.now n × ((n ≤ length e.now) × (j * n + n ≤ length dst.old)) }
    ensures { Next dst.old dst.new (j * n) n (λ k. shifted r.shift (get_or e.now k (pos 0))) }
{
    for k in 0..n {
        dst[j * n + k] = rounded(e[k], r);
    }
}
