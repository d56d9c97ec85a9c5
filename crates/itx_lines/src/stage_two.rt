// Stage two of the inverse transform, line by line: the Rust's `itx_pb16b1`, `itx_pb32b1` and `itx_pb64b1`, and one call that picks the size.
// Document 01, "The two stages".
// Differs from the Rust in: a call that breaks a test is not done; a line is copied first.
ghost use Rattle.std.specs.Prelude.{◌≡◌, ◌*◌};
ghost use Rattle.integers.specs.Lists.{written};
ghost use Rattle.evc.specs.Table.{tm};
ghost use Rattle.evc.specs.Stages.{stage_two_at};
ghost use Rattle.itx_halving.specs.Lines.{StageRoom};
ghost use Rattle.itx_halving.specs.Taken.{takes_two, done_two};
ghost use Rattle.itx_lines.specs.Sizes.{Size};

use super::built_in::built_in;
use super::gather::gather_i32;
use super::store::store_i16;
use itx_halving::Tail;

// All lines of a size, one after the other.
fn lines<const N: usize>(src: &[i32], dst: &mut [i16], l: usize, r: Tail)
    requires { Size N × StageRoom src.now dst.old N l }
    ensures { dst.new ≡ written (N * l) (stage_two_at (tm N) N l r.shift src.now) dst.old }
{
    let t = itx_table::table();
    for j in 0..l {
        let mut x = [0i64; N];
        gather_i32(src, &mut x, N, l, j);
        let mut e = [0i64; N];
        built_in(&t, &x, &mut e);
        store_i16(&e, dst, N, j, r);
    }
}

// Stage two of size 2^log2_size on 2^log2_line lines, where the size is 16, 32 or 64 and no test is broken; whether that is so.
pub fn itxb1(src: &[i32], dst: &mut [i16], log2_size: usize, log2_line: usize, shift: u8) -> bool
    ensures did { result ≡ takes_two 4 6 0 log2_size log2_line shift src.now dst.old }
    ensures exit { dst.new ≡ done_two result log2_size log2_line shift src.now dst.old }
{
    if itx_halving::takes(4, 6, 0, src.len(), dst.len(), log2_size, log2_line, shift) {
        // in this order a compiler has one value less to save around the sums of each line
        let r = Tail {
            add: itx_halving::rounding(shift),
            shift,
        };
        let l = 1usize << log2_line;
        match log2_size {
            4 => lines::<16>(src, dst, l, r),
            5 => lines::<32>(src, dst, l, r),
            _ => lines::<64>(src, dst, l, r),
        }
        return true;
    }
    false
}
