// The sums of line j, stored as one run of the output: the tails of the Rust's `itx_pb2b0` .. `itx_pb8b0`. Document 01, "The two stages".
ghost use Rattle.std.specs.Prelude.{◌+◌, ◌*◌, ◌≤◌, length, get_or, pos};
ghost use Rattle.integers.specs.Z.{clip32};
ghost use Rattle.itx_halving.specs.Lines.{Next};

// Clipped to 32 bits.
pub(crate) fn store_i32(y: &[i32], dst: &mut [i32], n: usize, j: usize)
    requires { (n ≤ length y.now) × (j * n + n ≤ length dst.old) }
    ensures { Next dst.old dst.new (j * n) n (λ k. clip32 (get_or y.now k (pos 0))) }
{
    for k in 0..n {
        dst[j * n + k] = integers::clip32(y[k] as i64);
    }
}
