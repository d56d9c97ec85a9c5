// Stage two's tail: sums of upper halves and of rests are put together in 64 bits, rounded, shifted and clipped. Document 01, "The two stages".
ghost use Rattle.std.specs.Prelude.{◌≡◌, ◌+◌, ◌*◌, ◌/◌, ◌%◌, ◌<◌, ◌≤◌, length, get_or, pos, ◌+ℤ◌, nat_abs};
ghost use Rattle.integers.specs.Lists.{tab};
ghost use Rattle.itx_halving.specs.Lines.{Next};
ghost use Rattle.itxb1_blocks.specs.Halves.{joined, tail_cell, TailReads};

// The columns' share and the rounding number, by place.
pub(crate) fn offsets<const N: usize>(col: &[i32; N], c: &mut [i64; N], add: i64)
    requires { nat_abs add ≤ 2147483648 }
    ensures { c.new ≡ tab N (λ k. get_or col.now k (pos 0) +ℤ add) }
{
    for k in 0..N {
        c[k] = (col[k] as i64) + add;
    }
}

// One sum of stage two.
fn last(h: i32, a: i32, c: i64, shift: u8) -> i16
    requires { (shift ≤ 31) × (nat_abs c ≤ 4294967296) }
    ensures { result ≡ joined shift h a c }
{
    integers::clip16(((h as i64) * 65536 + (a as i64) + c) >> shift)
}

// What the tail of 16 lines of size N reads: the sums of upper halves and of rests, what is added at each place, and the shift.
#[derive(Clone, Copy)]
pub(crate) struct Tail<'a, const N: usize> {
    pub h: &'a [i32],
    pub a: &'a [i32],
    pub c: &'a [i64; N],
    pub shift: u8,
    ghost reads: { TailReads h.now a.now c.now N shift },
}

impl<'a, const N: usize> Tail<'a, N> {
    // Place k of the line of lane j.
    fn at(&self, j: usize, k: usize) -> i16
        requires { (j < 16) × (k < N) }
        ensures { result ≡ tail_cell self.now.shift self.now.h.now self.now.a.now self.now.c.now j k }
    {
        let i = k * 16 + j;
        last(self.h[i], self.a[i], self.c[k], self.shift)
    }

    // The line of lane j to place `at` of the output: four places a turn, which a compiler makes one stretch of code.
    fn line(&self, dst: &mut [i16], at: usize, j: usize)
        requires { (j < 16) × (at + N ≤ length dst.old) }
        ensures { Next dst.old dst.new at N (tail_cell self.now.shift self.now.h.now self.now.a.now self.now.c.now j) }
    {
        for q in 0..N / 4 {
            for r in 0..4 {
                let k = 4 * q + r;
                dst[at + k] = self.at(j, k);
            }
        }
    }

    // All 16 lines of a block, from line j0 of the output on. It is never inlined, and reads its parts once: so the shift stays in the one register by
    // which a processor shifts.
    #[inline(never)]
    pub(crate) fn store(&self, dst: &mut [i16], j0: usize)
        requires { j0 * N + 16 * N ≤ length dst.old }
        ensures { Next dst.old dst.new (j0 * N) (16 * N) (λ i. tail_cell self.now.shift self.now.h.now self.now.a.now self.now.c.now (i / N) (i % N)) }
    {
        let tail = *self;
        for j in 0..16 {
            tail.line(dst, (j0 + j) * N, j);
        }
    }
}
