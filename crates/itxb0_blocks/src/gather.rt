// A block of 16 lines of the input, in the layout of `itx_lanes`: input k of the block's line j in lane j of row k·(64/N). Document 01, "The two stages".
ghost use Rattle.std.specs.Prelude.{◌≡◌, ◌+◌, ◌*◌, ◌/◌, ◌≤◌, length, get_or, pos};
ghost use Rattle.itx_halving.specs.Blocks.{input, Run, Rows, Source};

// Sixteen numbers from place `from` of the input, to place `to` of a block.
fn copy_row(src: &[i16], s: &mut [i16; 1024], from: usize, to: usize)
    requires { (from + 16 ≤ length src.now) × ((to + 16 ≤ 1024) × (length s.old ≡ 1024)) }
    ensures { Run s.old s.new to 16 (λ j. get_or src.now (from + j) (pos 0)) }
{
    for j in 0..16 {
        s[to + j] = src[from + j];
    }
}

// The lines j0 .. j0 + 15 of N inputs each, 1024/N places of the block from input to input.
pub(crate) fn gather<const N: usize>(src: &[i16], s: &mut [i16; 1024], l: usize, j0: usize)
    requires { Source src.now s.old N (1024 / N) l j0 }
    ensures { Rows s.new (1024 / N) N (input src.now l j0) }
{
    let p = 1024 / N;
    for k in 0..N {
        copy_row(src, s, k * l + j0, k * p);
    }
}
