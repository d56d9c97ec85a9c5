// A block of 16 lines of the input, in the layout of `itx_lanes`: input k of the block's line j in lane j of row k·(64/N). Document 01, "The two stages".
// An input of 32 bits is 65536 times its upper half, plus 32768, plus a rest that 16 bits hold with its sign; the halves go to two blocks.
ghost use Rattle.std.specs.Prelude.{◌≡◌, ◌+◌, ◌*◌, ◌/◌, ◌≤◌, length, get_or, ℤ, pos};
ghost use Rattle.itx_halving.specs.Blocks.{input, Run, Rows, Source};
ghost use Rattle.itxb1_blocks.specs.Halves.{upper, rest};

// Which half of a number a block gets.
pub(crate) trait Half {
    ghost part: { ℤ → ℤ };

    fn of(v: i32) -> i16
        ensures { result ≡ part v };
}

// The upper half.
pub(crate) struct Upper;

impl Half for Upper {
    ghost part = { upper };

    fn of(v: i32) -> i16 {
        (v >> 16) as i16
    }
}

// What is left of the number, less 32768.
pub(crate) struct Rest;

impl Half for Rest {
    ghost part = { rest };

    fn of(v: i32) -> i16 {
        (v - (v >> 16) * 65536 - 32768) as i16
    }
}

// The halves of sixteen numbers from place `from` of the input, to place `to` of a block.
fn row<H: Half>(src: &[i32], s: &mut [i16; 1024], from: usize, to: usize)
    requires { (from + 16 ≤ length src.now) × ((to + 16 ≤ 1024) × (length s.old ≡ 1024)) }
    ensures { Run s.old s.new to 16 (λ j. H.part (get_or src.now (from + j) (pos 0))) }
{
    for j in 0..16 {
        s[to + j] = H::of(src[from + j]);
    }
}

// Those of the lines j0 .. j0 + 15 of N inputs each, 1024/N places of the block from input to input.
pub(crate) fn gather<H: Half, const N: usize>(src: &[i32], s: &mut [i16; 1024], l: usize, j0: usize)
    requires { Source src.now s.old N (1024 / N) l j0 }
    ensures { Rows s.new (1024 / N) N (λ k j. H.part (input src.now l j0 k j)) }
{
    let p = 1024 / N;
    for k in 0..N {
        row::<H>(src, s, k * l + j0, k * p);
    }
}
