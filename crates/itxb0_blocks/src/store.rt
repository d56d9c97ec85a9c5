// A line of a block's sums as one run of the output: stage one's tail. Document 01, "The two stages".
ghost use Rattle.std.specs.Prelude.{◌+◌, ◌*◌, ◌<◌, ◌≤◌, length, get_or, pos};
ghost use Rattle.integers.specs.Z.{clip32};
ghost use Rattle.itx_halving.specs.Lines.{Next};

// The line of lane j, of N places, to place `a` of the output.
pub(crate) fn store_line<const N: usize>(e: &[i32], dst: &mut [i32], a: usize, j: usize)
    requires { ((16 ≤ N) × (N * 16 ≤ length e.now)) × ((j < 16) × (a + N ≤ length dst.old)) }
    ensures { Next dst.old dst.new a N (λ k. clip32 (get_or e.now (k * 16 + j) (pos 0))) }
{
    for k in 0..N {
        dst[a + k] = integers::clip32(e[k * 16 + j] as i64);
    }
}
