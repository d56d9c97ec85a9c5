// Stage two of sizes 2 and 4: the Rust's `itx_pb2b1` and `itx_pb4b1`, and one call that picks the size. Document 01, "The two stages".
// Differs from the Rust in: a call that breaks a test changes nothing.
ghost use Rattle.std.specs.Prelude.{◌≡◌, ◌*◌, ◌^◌, length};
ghost use Rattle.integers.specs.Lists.{written};
ghost use Rattle.evc.specs.Table.{tm};
ghost use Rattle.evc.specs.Tests.{samples_of};
ghost use Rattle.evc.specs.Stages.{stage_two_at};
ghost use Rattle.itx_halving.specs.Lines.{StageRoom};
ghost use Rattle.itx_halving.specs.Taken.{Call, takes_two, done_two};
ghost use Rattle.itxb1_small.specs.Sizes.{Size};

use super::eight::rows8;
use super::store::store_i16;
use super::wide::{line2, line4};
use itx_halving::Tail;

// The l lines of a size. The size is a const parameter, so that each has code of its own.
fn rows<const N: usize>(src: &[i32], dst: &mut [i16], l: usize, r: Tail)
    requires { Size N × StageRoom src.now dst.old N l }
    ensures { dst.new ≡ written (N * l) (stage_two_at (tm N) N l r.shift src.now) dst.old }
{
    for j in 0..l {
        let t = itx_table::table();
        match N {
            2 => {
                let e = line2(&t, 2048, src, l, j);
                store_i16(&[e.0, e.1], dst, 2, j, r)
            }
            _ => {
                let e = line4(&t, 1024, src, l, j);
                store_i16(&[e.0, e.1, e.2, e.3], dst, 4, j, r)
            }
        }
    }
}

// All lines. The literal number of lines lets a compiler write the block of 4 by 4 out.
fn lines(src: &[i32], dst: &mut [i16], log: usize, log2_line: usize, shift: u8)
    requires { Call 1 3 0 (length src.now) (length dst.old) log log2_line shift }
    ensures { dst.new ≡ written (samples_of log log2_line) (stage_two_at (tm (2 ^ log)) (2 ^ log) (2 ^ log2_line) shift src.now) dst.old }
{
    let l = 1usize << log2_line;
    let r = Tail {
        add: itx_halving::rounding(shift),
        shift,
    };
    match log {
        1 => rows::<2>(src, dst, l, r),
        2 => {
            if l == 4 {
                rows::<4>(src, dst, 4, r)
            } else {
                rows::<4>(src, dst, l, r)
            }
        }
        _ => rows8(src, dst, l, r),
    }
}

// Stage two of size 2^log2_size on 2^log2_line lines, and whether it was done. As in stage one, a block of 2 by 2 goes first, and `lines` is called
// in two places.
pub fn itxb1(src: &[i32], dst: &mut [i16], log2_size: usize, log2_line: usize, shift: u8) -> bool
    ensures did { result ≡ takes_two 1 3 0 log2_size log2_line shift src.now dst.old }
    ensures exit { dst.new ≡ done_two result log2_size log2_line shift src.now dst.old }
{
    let n = src.len();
    let m = dst.len();
    if log2_line == 1 {
        if log2_size == 1 {
            let taken = itx_halving::takes(1, 3, 0, n, m, log2_size, log2_line, shift);
            if taken {
                let r = Tail {
                    add: itx_halving::rounding(shift),
                    shift,
                };
                rows::<2>(src, dst, 2, r);
            }
            return taken;
        }
    }
    let taken = itx_halving::takes(1, 3, 0, n, m, log2_size, log2_line, shift);
    if taken {
        if log2_line == 1 {
            lines(&src[..], dst, log2_size, 1, shift);
        } else {
            lines(&src[..], dst, log2_size, log2_line, shift);
        }
    }
    taken
}
