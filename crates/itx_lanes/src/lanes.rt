// What a level does in one lane: inputs are picked, products added, two places written. Document 01, "The two stages".
ghost use Rattle.std.specs.Prelude.{◌≡◌, suc, ◌+◌, ◌*◌, ◌<◌, ◌≤◌, length};
ghost use Rattle.itx_lanes.specs.Steps.{terms, Rows, Input, Picks, Terms, Ready, Halves, crossed, Stepped};

// The input of lane j in the row at the k-th odd multiple of q.
fn input(s: &[i16; 1024], q: usize, k: usize, j: usize) -> i32
    requires { Rows q (k + 1) × (j < 16) }
    ensures { Input s.now (suc (k + k) * q) j result }
{
    s[(2 * k + 1) * q * 16 + j] as i32
}

// All the odd inputs of size 2m.
pub(crate) fn pick(s: &[i16; 1024], x: &mut [i32], m: usize, q: usize, j: usize)
    requires { (length x.old ≡ m) × Rows q m × (j < 16) }
    ensures { Picks x.new s.now q m j }
{
    for k in 0..m {
        x[k] = input(s, q, k, j);
    }
}

// One term more of the odd half at place n.
fn one(t: &[i8; 4096], x: &[i32], z: i32, q: usize, k: usize, n: usize) -> i32
    requires { Terms t.now x.now q n × (k < length x.now) × (z ≡ terms x.now q k n) }
    ensures { result ≡ terms x.now q (k + 1) n }
{
    z + (t[(2 * k + 1) * q * 64 + n] as i32) * x[k]
}

// The odd half at place n.
fn odd(t: &[i8; 4096], x: &[i32], m: usize, q: usize, n: usize) -> i32
    requires { Terms t.now x.now q n × (length x.now ≡ m) }
    ensures { result ≡ terms x.now q m n }
{
    let mut z: i32 = 0;
    for k in 0..m {
        z = one(t, x, z, q, k, n);
    }
    z
}

// The halving at place n and its mirror: the sum and the difference of the halves.
fn put(e: &mut [i32], m: usize, n: usize, j: usize, z: i32)
    requires { Halves e.old m n j z }
    ensures { e.new ≡ crossed e.old m n j z }
{
    let v = e[n * 16 + j];
    e[n * 16 + j] = v + z;
    e[(2 * m - 1 - n) * 16 + j] = v - z;
}

// The places from a to b of lane j and their mirrors. Where the numbers are literals and the places few, a compiler writes both loops out: it
// then knows which numbers of the table it reads, and needs no table at run time.
pub(crate) fn places(
    t: &[i8; 4096],
    x: &[i32],
    e: &mut [i32],
    m: usize,
    a: usize,
    b: usize,
    j: usize,
)
    requires { Ready t.now x.now e.old m a j × ((a ≤ b) × (b ≤ m)) }
    ensures { Stepped t.now x.now e.old e.new m a b j }
{
    let q = 32 / m;
    for n in a..b {
        let z = odd(t, x, m, q, n);
        put(e, m, n, j, z);
    }
}
