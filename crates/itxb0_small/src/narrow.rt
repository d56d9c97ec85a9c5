// The sums of one line, inputs of 16 bits, by straight code over any mirrored table: the bodies of the Rust's `itx_pb2b0`, `itx_pb4b0`
// and `itx_pb8b0`. Document 01, "The two stages".
// Line j of l stands at j, l + j, 2l + j and so on, and row k of the table at place k·w: the even inputs and rows are a line and a table again, with
// l and w doubled. All places are literals where t, w and the size are, so that no table is left at run time.
// Differs from the Rust in: size 2 is read from the table; 32 bits hold every sum, so that a vector holds four lines.
ghost use Rattle.std.specs.Prelude.{◌+◌, ◌*◌, ◌<◌, [], ◌∷◌, length};
ghost use Rattle.itx_table.specs.Mirror.{Mirrored};
ghost use Rattle.itx_halving.specs.Line.{rows};
ghost use Rattle.itx_halving.specs.Straight.{Reach, Product, Odd, Line};
ghost use Rattle.itxb0_small.specs.Sums.{narrow};

// The sums of a line of 4, by value: they are read one by one.
#[derive(Clone, Copy)]
pub(crate) struct Four(pub i32, pub i32, pub i32, pub i32);

// Input k of line j times the table's number in row k, column n.
fn term(t: &[i8], w: usize, x: &[i16], l: usize, k: usize, n: usize, j: usize) -> i32
    requires { (k * w + n < length t.now) × (k * l + j < length x.now) }
    ensures { Product narrow (rows t.now w k n) (rows x.now l k j) result }
{
    (t[k * w + n] as i32) * (x[k * l + j] as i32)
}

// The odd inputs' share of place n in a line of 8.
fn odd4(t: &[i8], w: usize, x: &[i16], l: usize, n: usize, j: usize) -> i32
    requires { Reach t.now w x.now l j 8 × (n < 8) }
    ensures { Odd (4 * narrow) (rows t.now w) 4 l x.now j n result }
{
    let a = term(t, w, x, l, 1, n, j) + term(t, w, x, l, 3, n, j);
    let b = term(t, w, x, l, 5, n, j) + term(t, w, x, l, 7, n, j);
    a + b
}

// A line of each size.
pub(crate) fn line2(t: &[i8], w: usize, x: &[i16], l: usize, j: usize) -> [i32; 2]
    requires { Reach t.now w x.now l j 2 }
    ensures { Line (2 * narrow) (rows t.now w) 2 l x.now j result }
{
    let a = term(t, w, x, l, 0, 0, j) + term(t, w, x, l, 1, 0, j);
    let b = term(t, w, x, l, 0, 1, j) + term(t, w, x, l, 1, 1, j);
    [a, b]
}

pub(crate) fn line4(t: &[i8], w: usize, x: &[i16], l: usize, j: usize) -> Four
    requires { Reach t.now w x.now l j 4 × Mirrored 4 (rows t.now w) }
    ensures { Line (4 * narrow) (rows t.now w) 4 l x.now j (result.0 ∷ result.1 ∷ result.2 ∷ result.3 ∷ []) }
{
    let e = line2(t, w + w, x, l + l, j);
    let a = term(t, w, x, l, 1, 0, j) + term(t, w, x, l, 3, 0, j);
    let b = term(t, w, x, l, 1, 1, j) + term(t, w, x, l, 3, 1, j);
    let p = e[0];
    let q = e[1];
    Four(p + a, q + b, q - b, p - a)
}

pub(crate) fn line8(t: &[i8], w: usize, x: &[i16], l: usize, j: usize) -> [i32; 8]
    requires { Reach t.now w x.now l j 8 × (Mirrored 8 (rows t.now w) × Mirrored 4 (rows t.now (w + w))) }
    ensures { Line (8 * narrow) (rows t.now w) 8 l x.now j result }
{
    let e = line4(t, w + w, x, l + l, j);
    let a = odd4(t, w, x, l, 0, j);
    let b = odd4(t, w, x, l, 1, j);
    let c = odd4(t, w, x, l, 2, j);
    let d = odd4(t, w, x, l, 3, j);
    let p = e.0;
    let q = e.1;
    let r = e.2;
    let s = e.3;
    [p + a, q + b, r + c, s + d, s - d, r - c, q - b, p - a]
}
