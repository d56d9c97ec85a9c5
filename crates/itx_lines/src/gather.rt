// A line of the input, place after place: line j of l stands at j, l + j, 2l + j and so on. Document 01, "The two stages".
// Differs from the Rust in: the line is copied once, widened, where the Rust reads each input again for every sum.
ghost use Rattle.std.specs.Prelude.{◌≡◌, ◌*◌, ◌<◌, ◌≤◌, length};
ghost use Rattle.itx_halving.specs.Lines.{Gathered};

// Line j of an input of 16 bits, as a list of n numbers.
pub(crate) fn gather_i16(src: &[i16], x: &mut [i64], n: usize, l: usize, j: usize)
    requires { (length x.old ≡ n) × ((j < l) × (n * l ≤ length src.now)) }
    ensures { Gathered x.new src.now n n l j }
{
    for k in 0..n {
        x[k] = src[k * l + j] as i64;
    }
}

// The same of an input of 32 bits.
pub(crate) fn gather_i32(src: &[i32], x: &mut [i64], n: usize, l: usize, j: usize)
    requires { (length x.old ≡ n) × ((j < l) × (n * l ≤ length src.now)) }
    ensures { Gathered x.new src.now n n l j }
{
    for i in 0..n {
        x[i] = src[i * l + j] as i64;
    }
}
