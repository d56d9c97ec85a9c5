// Laws of whole numbers, sums and lists (specs/, proofs/), and the total helpers that every kernel uses. Each is a choice of values and
// computes nothing else on the way: compilers turn a loop of such calls into vector code.
#![tactic(auto)]

ghost use Rattle.std.specs.Prelude.{◌≡◌, nat_abs};
ghost use Rattle.integers.specs.Z as Z;

// The smaller of two.
pub fn min_i64(a: i64, b: i64) -> i64
    ensures { result ≡ Z.min_z a b }
{
    a.min(b)
}

// The larger of two.
pub fn max_i64(a: i64, b: i64) -> i64
    ensures { result ≡ Z.max_z a b }
{
    a.max(b)
}

// The nearest number that an i16 holds.
pub fn clip16(x: i64) -> i16
    ensures { result ≡ Z.clip16 x }
{
    min_i64(32767, max_i64(-32768, x)) as i16
}

// The nearest number that an i32 holds. Tests of equality and of the sign: the older vector units compare no 64-bit numbers by order.
pub fn clip32(x: i64) -> i32
    ensures { result ≡ Z.clip32 x }
{
    let h = x >> 31;
    if h == 0 {
        return x as i32;
    }
    if h == -1 {
        return x as i32;
    }
    if x < 0 {
        return -2147483648;
    }
    2147483647
}

// The absolute value, which a u32 holds at every i32.
pub fn abs_i32(x: i32) -> u32
    ensures { result ≡ nat_abs x }
{
    x.unsigned_abs()
}
