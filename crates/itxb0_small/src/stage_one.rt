// Stage one of sizes 2, 4 and 8: the Rust's `itx_pb2b0`, `itx_pb4b0` and `itx_pb8b0`, and one call that picks the size. Document 01, "The two
// stages".
// Differs from the Rust in: a call that breaks a test changes nothing.
ghost use Rattle.std.specs.Prelude.{◌≡◌, ◌*◌, ◌^◌, ◌≤◌};
ghost use Rattle.integers.specs.Lists.{written};
ghost use Rattle.evc.specs.Table.{tm};
ghost use Rattle.evc.specs.Stages.{stage_one_at};
ghost use Rattle.itx_halving.specs.Lines.{StageRoom};
ghost use Rattle.itx_halving.specs.Taken.{takes_one, done_one};
ghost use Rattle.itxb0_small.specs.Sizes.{Size};

use super::narrow::{line2, line4, line8};
use super::store::store_i32;

// The l lines of a size. The size is a const parameter, so that each has code of its own.
fn rows<const N: usize>(src: &[i16], dst: &mut [i32], l: usize)
    requires { Size N × StageRoom src.now dst.old N l }
    ensures { dst.new ≡ written (N * l) (stage_one_at (tm N) N l src.now) dst.old }
{
    for j in 0..l {
        let t = itx_table::table();
        match N {
            2 => store_i32(&line2(&t, 2048, src, l, j), dst, 2, j),
            4 => {
                let e = line4(&t, 1024, src, l, j);
                store_i32(&[e.0, e.1, e.2, e.3], dst, 4, j)
            }
            _ => store_i32(&line8(&t, 512, src, l, j), dst, 8, j),
        }
    }
}

// All lines. The literal number of lines lets a compiler write the block of 4 by 4 out.
fn lines(src: &[i16], dst: &mut [i32], log: usize, l: usize)
    requires { ((1 ≤ log) × (log ≤ 3)) × StageRoom src.now dst.old (2 ^ log) l }
    ensures { dst.new ≡ written ((2 ^ log) * l) (stage_one_at (tm (2 ^ log)) (2 ^ log) l src.now) dst.old }
{
    match log {
        1 => rows::<2>(src, dst, l),
        2 => {
            if l == 4 {
                rows::<4>(src, dst, 4)
            } else {
                rows::<4>(src, dst, l)
            }
        }
        _ => rows::<8>(src, dst, l),
    }
}

// Stage one of size 2^log2_size on 2^log2_line lines, and whether it was done. A block of 2 by 2 goes first, with tests that are literals there.
// `lines` is called in two places: compilers inline what has one caller, and that block would pay for all the registers of the others.
pub fn itxb0(src: &[i16], dst: &mut [i32], log2_size: usize, log2_line: usize) -> bool
    ensures did { result ≡ takes_one 1 3 0 log2_size log2_line src.now dst.old }
    ensures exit { dst.new ≡ done_one result log2_size log2_line src.now dst.old }
{
    let n = src.len();
    let m = dst.len();
    if log2_line == 1 {
        if log2_size == 1 {
            let taken = itx_halving::takes(1, 3, 0, n, m, log2_size, log2_line, 0);
            if taken {
                rows::<2>(src, dst, 2);
            }
            return taken;
        }
    }
    let taken = itx_halving::takes(1, 3, 0, n, m, log2_size, log2_line, 0);
    if taken {
        if log2_line == 1 {
            lines(&src[..], dst, log2_size, 2);
        } else {
            lines(&src[..], dst, log2_size, 1usize << log2_line);
        }
    }
    taken
}
