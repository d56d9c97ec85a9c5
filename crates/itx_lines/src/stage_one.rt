// Stage one of the inverse transform, line by line: the Rust's `itx_pb16b0`, `itx_pb32b0` and `itx_pb64b0`, and one call that picks the size.
// Document 01, "The two stages".
// Differs from the Rust in: a call that breaks a test is not done; a line is copied first.
ghost use Rattle.std.specs.Prelude.{◌≡◌, ◌*◌};
ghost use Rattle.integers.specs.Lists.{written};
ghost use Rattle.evc.specs.Table.{tm};
ghost use Rattle.evc.specs.Stages.{stage_one_at};
ghost use Rattle.itx_halving.specs.Lines.{StageRoom};
ghost use Rattle.itx_halving.specs.Taken.{takes_one, done_one};
ghost use Rattle.itx_lines.specs.Sizes.{Size};

use super::built_in::built_in;
use super::gather::gather_i16;
use super::store::store_i32;

// All lines of a size, one after the other.
fn lines<const N: usize>(src: &[i16], dst: &mut [i32], l: usize)
    requires { Size N × StageRoom src.now dst.old N l }
    ensures { dst.new ≡ written (N * l) (stage_one_at (tm N) N l src.now) dst.old }
{
    let t = itx_table::table();
    for j in 0..l {
        let mut x = [0i64; N];
        gather_i16(src, &mut x, N, l, j);
        let mut e = [0i64; N];
        built_in(&t, &x, &mut e);
        store_i32(&e, dst, N, j);
    }
}

// Stage one of size 2^log2_size on 2^log2_line lines, where the size is 16, 32 or 64 and no test is broken; whether that is so.
pub fn itxb0(src: &[i16], dst: &mut [i32], log2_size: usize, log2_line: usize) -> bool
    ensures did { result ≡ takes_one 4 6 0 log2_size log2_line src.now dst.old }
    ensures exit { dst.new ≡ done_one result log2_size log2_line src.now dst.old }
{
    if itx_halving::takes(4, 6, 0, src.len(), dst.len(), log2_size, log2_line, 0) {
        let l = 1usize << log2_line;
        match log2_size {
            4 => lines::<16>(src, dst, l),
            5 => lines::<32>(src, dst, l),
            _ => lines::<64>(src, dst, l),
        }
        return true;
    }
    false
}
