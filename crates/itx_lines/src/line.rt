// The sums of one line, by halving: the bodies of the Rust's `itx_pb2b0` .. `itx_pb64b0` and `itx_pb2b1` .. `itx_pb64b1`, which differ only in
// their input and in their tail. Document 01, "The two stages"; document 02, request Ten, for the tables.
// Differs from the Rust in: one halving step for every size; any table with the mirror property, row k at place k·w; size 2 is read from the table.
ghost use Rattle.std.specs.Prelude.{◌≡◌, ◌+◌, ◌<◌, ◌≤◌, length};
ghost use Rattle.itx_halving.specs.Line.{rows, line, odd, Small, Term, Inputs, Table, Level, Sums, Steps, Begun};

// A table's number times an input.
fn term(t: &[i8], x: &[i64], at: usize, i: usize) -> i64
    requires { (at < length t.now) × Small x.now i }
    ensures { Term t.now at x.now i result }
{
    (t[at] as i64) * x[i]
}

// The odd half at place n: the rows and the inputs at odd multiples of q.
fn odd_sum(t: &[i8], w: usize, x: &[i64], m: usize, q: usize, n: usize) -> i64
    requires { Level t.now w x.now m q × (n < m) }
    ensures { result ≡ odd (rows t.now w) q m n (line x.now) }
{
    let mut sum: i64 = 0;
    for k in 0..m {
        let d = (2 * k + 1) * q;
        sum = sum + term(t, x, d * w + n, d);
    }
    sum
}

// The halving at place n and its mirror: the sum and the difference of the halves.
fn step(t: &[i8], w: usize, x: &[i64], e: &mut [i64], m: usize, q: usize, n: usize)
    requires { Steps t.now w x.now e.old m q n × (n < m) }
    ensures { Steps t.now w x.now e.new m q (n + 1) }
{
    let o = odd_sum(t, w, x, m, q, n);
    let v = e[n];
    e[n] = v + o;
    e[2 * m - 1 - n] = v - o;
}

// The halving step, from the product of size m, with every second row and input, to that of size 2m: its places from a to b.
pub(crate) fn steps(
    t: &[i8],
    w: usize,
    x: &[i64],
    e: &mut [i64],
    m: usize,
    q: usize,
    a: usize,
    b: usize,
)
    requires { Steps t.now w x.now e.old m q a × ((a ≤ b) × (b ≤ m)) }
    ensures { Steps t.now w x.now e.new m q b }
{
    for n in a..b {
        step(t, w, x, e, m, q, n);
    }
}

// The product of size 2, of the inputs at 0 and q: four numbers of the table.
fn start(t: &[i8], w: usize, x: &[i64], e: &mut [i64], q: usize)
    requires { (Table t.now w (q + q) × Inputs x.now (q + q)) × ((0 < q) × (length e.old ≡ q + q)) }
    ensures { Begun t.now w x.now e.new q }
{
    e[0] = term(t, x, 0, 0) + term(t, x, q * w, q);
    e[1] = term(t, x, 1, 0) + term(t, x, q * w + 1, q);
}

// A line of each size. The numbers are literals, and each loop is short enough for a compiler to write it out: it then knows which numbers of the
// table it reads.
pub(crate) fn line16(t: &[i8], w: usize, x: &[i64], e: &mut [i64])
    requires { (Table t.now w 16 × Inputs x.now 16) × (length e.old ≡ 16) }
    ensures { Sums e.new (rows t.now w) 1 16 x.now }
{
    start(t, w, x, e, 8);
    steps(t, w, x, e, 2, 4, 0, 2);
    steps(t, w, x, e, 4, 2, 0, 4);
    steps(t, w, x, e, 8, 1, 0, 4);
    steps(t, w, x, e, 8, 1, 4, 8);
}

pub(crate) fn line32(t: &[i8], w: usize, x: &[i64], e: &mut [i64])
    requires { (Table t.now w 32 × Inputs x.now 32) × (length e.old ≡ 32) }
    ensures { Sums e.new (rows t.now w) 1 32 x.now }
{
    start(t, w, x, e, 16);
    steps(t, w, x, e, 2, 8, 0, 2);
    steps(t, w, x, e, 4, 4, 0, 4);
    steps(t, w, x, e, 8, 2, 0, 4);
    steps(t, w, x, e, 8, 2, 4, 8);
    steps(t, w, x, e, 16, 1, 0, 4);
    steps(t, w, x, e, 16, 1, 4, 8);
    steps(t, w, x, e, 16, 1, 8, 12);
    steps(t, w, x, e, 16, 1, 12, 16);
}

// Size 64, but for its last level: the product of size 32, with every second row and input.
pub(crate) fn half64(t: &[i8], w: usize, x: &[i64], e: &mut [i64])
    requires { (Table t.now w 64 × Inputs x.now 64) × (length e.old ≡ 64) }
    ensures { Sums e.new (rows t.now w) 2 32 x.now }
{
    start(t, w, x, e, 32);
    steps(t, w, x, e, 2, 16, 0, 2);
    steps(t, w, x, e, 4, 8, 0, 4);
    steps(t, w, x, e, 8, 4, 0, 4);
    steps(t, w, x, e, 8, 4, 4, 8);
    steps(t, w, x, e, 16, 2, 0, 4);
    steps(t, w, x, e, 16, 2, 4, 8);
    steps(t, w, x, e, 16, 2, 8, 12);
    steps(t, w, x, e, 16, 2, 12, 16);
}
