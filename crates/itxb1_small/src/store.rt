// The sums of line j, stored as one run of the output: the tails of the Rust's `itx_pb2b1` .. `itx_pb8b1`. Document 01, "The two stages".
// Differs from the Rust in: size 8 clips its quotients in two steps, to 32 bits and then to 16, since vector units clip eight of 32 bits at once
// and none of 64.
ghost use Rattle.std.specs.Prelude.{◌≡◌, ℕ, ◌+◌, ◌*◌, ◌≤◌, ◌<◌, length, get_or, pos, nat_abs};
ghost use Rattle.integers.specs.Z.{floor_pow, clip16, clip32};
ghost use Rattle.itx_halving.specs.Lines.{shifted, Bounded, Next};
ghost use Rattle.itxb1_small.specs.Sums.{most8};

use itx_halving::Tail;

// Sizes 2 and 4: each sum rounded, divided by 2^shift toward minus infinity, and clipped to 16 bits.
pub(crate) fn store_i16(y: &[i64], dst: &mut [i16], n: usize, j: usize, r: Tail)
    requires { Bounded y.now n × ((n ≤ length y.now) × (j * n + n ≤ length dst.old)) }
    ensures { Next dst.old dst.new (j * n) n (λ k. shifted r.shift (get_or y.now k (pos 0))) }
{
    for k in 0..n {
        dst[j * n + k] = integers::clip16((y[k] + r.add) >> r.shift);
    }
}

// Size 8. A sum with its rounding number, divided by 2^shift toward minus infinity, and clipped to 32 bits: after 11 bits are shifted
// out there is nothing left to clip.
fn quotient(v: i64, shift: u8) -> i32
    requires { (shift ≤ 31) × (nat_abs v ≤ most8) }
    ensures { result ≡ clip32 (floor_pow v shift) }
{
    let q = v >> shift;
    if shift < 11 {
        return integers::clip32(q);
    }
    q as i32
}

// The first step, for line j of a group.
pub(crate) fn store_quotients(y: &[i64], z: &mut [i32], n: usize, j: usize, shift: u8)
    requires { ((shift ≤ 31) × ((k : ℕ) → k < n → nat_abs (get_or y.now k (pos 0)) ≤ most8)) × ((n ≤ length y.now) × ((j * n + n ≤ length z.old) × ((j < n) × (n * n ≤ length z.old)))) }
    ensures { Next z.old z.new (j * n) n (λ k. clip32 (floor_pow (get_or y.now k (pos 0)) shift)) }
{
    for k in 0..n {
        z[j * n + k] = quotient(y[k], shift);
    }
}

// The second step, for the n numbers of a group, from place `at` on.
pub(crate) fn store_clipped(z: &[i32], dst: &mut [i16], n: usize, at: usize)
    requires { (n ≤ length z.now) × (at + n ≤ length dst.old) }
    ensures { Next dst.old dst.new at n (λ i. clip16 (get_or z.now i (pos 0))) }
{
    for i in 0..n {
        dst[at + i] = integers::clip16(z[i] as i64);
    }
}
