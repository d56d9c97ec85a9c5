// The sums of one line, inputs of 32 bits, by straight code over any mirrored table: the bodies of the Rust's `itx_pb2b1`, `itx_pb4b1`
// and `itx_pb8b1`. Document 01, "The two stages".
// Line j of l stands at j, l + j, 2l + j and so on, and row k of the table at place k·w: the even inputs and rows are a line and a table again, with
// l and w doubled. All places are literals where t, w and the size are, so that no table is left at run time.
// Differs from the Rust in: size 2 is read from the table; one halving step for both larger sizes.
ghost use Rattle.std.specs.Prelude.{◌+◌, ◌*◌, ◌≤◌, ◌<◌, [], ◌∷◌, length, nat_abs};
ghost use Rattle.itx_table.specs.Mirror.{Mirrored};
ghost use Rattle.itx_halving.specs.Line.{rows};
ghost use Rattle.itx_halving.specs.Straight.{Reach, Product, Odd, Line};
ghost use Rattle.itxb1_small.specs.Sums.{wide, most8, Raised};

// The sums of a line of 2, and of 4, by value: they are read one by one.
#[derive(Clone, Copy)]
pub(crate) struct Two(pub i64, pub i64);

#[derive(Clone, Copy)]
pub(crate) struct Four(pub i64, pub i64, pub i64, pub i64);

// Input k of line j times the table's number in row k, column n.
fn term(t: &[i8], w: usize, x: &[i32], l: usize, k: usize, n: usize, j: usize) -> i64
    requires { (k * w + n < length t.now) × (k * l + j < length x.now) }
    ensures { Product wide (rows t.now w k n) (rows x.now l k j) result }
{
    (t[k * w + n] as i64) * (x[k * l + j] as i64)
}

// The odd inputs' share of place n in a line of 8.
fn odd4(t: &[i8], w: usize, x: &[i32], l: usize, n: usize, j: usize) -> i64
    requires { Reach t.now w x.now l j 8 × (n < 8) }
    ensures { Odd (4 * wide) (rows t.now w) 4 l x.now j n result }
{
    let a = term(t, w, x, l, 1, n, j) + term(t, w, x, l, 3, n, j);
    let b = term(t, w, x, l, 5, n, j) + term(t, w, x, l, 7, n, j);
    a + b
}

// A line of each size.
pub(crate) fn line2(t: &[i8], w: usize, x: &[i32], l: usize, j: usize) -> Two
    requires { Reach t.now w x.now l j 2 }
    ensures { Line (2 * wide) (rows t.now w) 2 l x.now j (result.0 ∷ result.1 ∷ []) }
{
    let a = term(t, w, x, l, 0, 0, j) + term(t, w, x, l, 1, 0, j);
    let b = term(t, w, x, l, 0, 1, j) + term(t, w, x, l, 1, 1, j);
    Two(a, b)
}

pub(crate) fn line4(t: &[i8], w: usize, x: &[i32], l: usize, j: usize) -> Four
    requires { Reach t.now w x.now l j 4 × Mirrored 4 (rows t.now w) }
    ensures { Line (4 * wide) (rows t.now w) 4 l x.now j (result.0 ∷ result.1 ∷ result.2 ∷ result.3 ∷ []) }
{
    let e = line2(t, w + w, x, l + l, j);
    let a = term(t, w, x, l, 1, 0, j) + term(t, w, x, l, 3, 0, j);
    let b = term(t, w, x, l, 1, 1, j) + term(t, w, x, l, 3, 1, j);
    let p = e.0;
    let q = e.1;
    Four(p + a, q + b, q - b, p - a)
}

// Of size 8 the rounding number is added too, to the even half before the halves part: four times instead of eight.
pub(crate) fn line8(t: &[i8], w: usize, x: &[i32], l: usize, j: usize, add: i64) -> [i64; 8]
    requires { (Reach t.now w x.now l j 8 × (Mirrored 8 (rows t.now w) × Mirrored 4 (rows t.now (w + w)))) × (nat_abs add ≤ 2147483648) }
    ensures { Raised most8 (rows t.now w) 8 l x.now j add result }
{
    let e = line4(t, w + w, x, l + l, j);
    let a = odd4(t, w, x, l, 0, j);
    let b = odd4(t, w, x, l, 1, j);
    let c = odd4(t, w, x, l, 2, j);
    let d = odd4(t, w, x, l, 3, j);
    let p = e.0 + add;
    let q = e.1 + add;
    let r = e.2 + add;
    let s = e.3 + add;
    [p + a, q + b, r + c, s + d, s - d, r - c, q - b, p - a]
}
