// A line of a tile, its row or its column, becomes its coefficients by butterflies: the sums of its halves' numbers make the first of them, the
// differences the others. Document 01, "Distortion".
ghost use Rattle.std.specs.Prelude.{◌≡◌, [], ◌∷◌, ◌<◌, ◌≤◌};
ghost use Rattle.std.proofs.Common.{lit≤};
ghost use Rattle.satd_tiles.specs.Passes.{place, RowWithin, puts, whole_line};

// A line of N numbers leaves its coefficients in column j of a block. Tiles have sides of 2 to 8, so that all sums of differences of 16 bits fit 32.
// Each row is named by a literal: of a loop over the rows compilers make scalar code.
pub(crate) trait Line<const N: usize> {
    fn put(out: &mut [[i32; N]; N], j: usize, x: [i32; N])
        requires column { j < N }
        requires within { RowWithin 262144 x }
        ensures { out.new ≡ puts (place (whole_line N x.entry)) j out.old N };

    ghost sides: { (2 ≤ N) × (N ≤ 8) };
}

pub(crate) struct Butterflies;

fn two(x0: i32, x1: i32) -> [i32; 2]
    requires { RowWithin 524288 (x0 ∷ x1 ∷ []) }
    ensures { result ≡ whole_line 2 (x0 ∷ x1 ∷ []) }
{
    [x0 + x1, x0 - x1]
}

fn four(x0: i32, x1: i32, x2: i32, x3: i32) -> [i32; 4]
    requires { RowWithin 524288 (x0 ∷ x1 ∷ x2 ∷ x3 ∷ []) }
    ensures { result ≡ whole_line 4 (x0 ∷ x1 ∷ x2 ∷ x3 ∷ []) }
{
    let a0 = x0 + x2;
    let a1 = x1 + x3;
    let a2 = x0 - x2;
    let a3 = x1 - x3;
    [a0 + a1, a0 - a1, a2 + a3, a2 - a3]
}

fn eight(x0: i32, x1: i32, x2: i32, x3: i32, x4: i32, x5: i32, x6: i32, x7: i32) -> [i32; 8]
    requires { RowWithin 262144 (x0 ∷ x1 ∷ x2 ∷ x3 ∷ x4 ∷ x5 ∷ x6 ∷ x7 ∷ []) }
    ensures { result ≡ whole_line 8 (x0 ∷ x1 ∷ x2 ∷ x3 ∷ x4 ∷ x5 ∷ x6 ∷ x7 ∷ []) }
{
    let [c0, c1, c2, c3] = four(x0 + x4, x1 + x5, x2 + x6, x3 + x7);
    let [c4, c5, c6, c7] = four(x0 - x4, x1 - x5, x2 - x6, x3 - x7);
    [c0, c1, c2, c3, c4, c5, c6, c7]
}

impl Line<2> for Butterflies {
    ghost sides = { (lit≤ tt, lit≤ tt) };

    fn put(out: &mut [[i32; 2]; 2], j: usize, x: [i32; 2])
        requires column { j < 2 }
        requires within { RowWithin 262144 x }
        ensures { out.new ≡ puts (place (whole_line 2 x)) j out.old 2 }
    {
        let [x0, x1] = x;
        let [c0, c1] = two(x0, x1);
        out[0][j] = c0;
        out[1][j] = c1;
    }
}

impl Line<4> for Butterflies {
    ghost sides = { (lit≤ tt, lit≤ tt) };

    fn put(out: &mut [[i32; 4]; 4], j: usize, x: [i32; 4])
        requires column { j < 4 }
        requires within { RowWithin 262144 x }
        ensures { out.new ≡ puts (place (whole_line 4 x)) j out.old 4 }
    {
        let [x0, x1, x2, x3] = x;
        let [c0, c1, c2, c3] = four(x0, x1, x2, x3);
        out[0][j] = c0;
        out[1][j] = c1;
        out[2][j] = c2;
        out[3][j] = c3;
    }
}

impl Line<8> for Butterflies {
    ghost sides = { (lit≤ tt, lit≤ tt) };

    fn put(out: &mut [[i32; 8]; 8], j: usize, x: [i32; 8])
        requires column { j < 8 }
        requires within { RowWithin 262144 x }
        ensures { out.new ≡ puts (place (whole_line 8 x)) j out.old 8 }
    {
        let [x0, x1, x2, x3, x4, x5, x6, x7] = x;
        let [c0, c1, c2, c3, c4, c5, c6, c7] = eight(x0, x1, x2, x3, x4, x5, x6, x7);
        out[0][j] = c0;
        out[1][j] = c1;
        out[2][j] = c2;
        out[3][j] = c3;
        out[4][j] = c4;
        out[5][j] = c5;
        out[6][j] = c6;
        out[7][j] = c7;
    }
}
