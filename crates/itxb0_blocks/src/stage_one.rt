// Stage one of the inverse transform by blocks of 16 lines. Document 01, "The two stages".
// Differs from the Rust in: the sums of 16 lines are made side by side, and by `itx_lanes`; a call that breaks a test, of a size below 16 or of
// fewer lines is not done.
ghost use Rattle.std.specs.Prelude.{◌≡◌, ◌*◌, ◌%◌, ◌^◌, ◌≤◌};
ghost use Rattle.integers.specs.Lists.{written};
ghost use Rattle.evc.specs.Table.{tm};
ghost use Rattle.evc.specs.Stages.{stage_one_at};
ghost use Rattle.itx_halving.specs.Lines.{StageRoom};
ghost use Rattle.itx_halving.specs.Taken.{takes_one, done_one};
ghost use Rattle.itx_halving.specs.Blocks.{BlockRoom, Blocked};
ghost use Rattle.itx_lanes.specs.Lanes.{AnySize};

use super::gather::gather;
use super::store::store_line;

// Lines j0 .. j0 + 15 of l, of size N: gathered, summed, and stored line after line. P is N·16, the places that the sums take.
fn one<const N: usize, const P: usize>(src: &[i16], dst: &mut [i32], l: usize, j0: usize)
    requires { ((P ≡ N * 16) × AnySize P) × BlockRoom src.now dst.old N l j0 }
    ensures { Blocked (stage_one_at (tm N) N l src.now) dst.old dst.new N j0 }
{
    let mut s = [0i16; 1024];
    gather::<N>(src, &mut s, l, j0);
    let mut e = [0i32; P];
    itx_lanes::sums(&s, &mut e);
    for j in 0..16 {
        store_line::<N>(&e, dst, (j0 + j) * N, j);
    }
}

// All lines, block after block, by the log of the size.
fn ones(src: &[i16], dst: &mut [i32], log: usize, l: usize)
    requires { ((4 ≤ log) × (log ≤ 6)) × (StageRoom src.now dst.old (2 ^ log) l × (l % 16 ≡ 0)) }
    ensures { dst.new ≡ written ((2 ^ log) * l) (stage_one_at (tm (2 ^ log)) (2 ^ log) l src.now) dst.old }
{
    let b = l / 16;
    for i in 0..b {
        let j0 = i * 16;
        match log {
            4 => one::<16, 256>(src, dst, l, j0),
            5 => one::<32, 512>(src, dst, l, j0),
            _ => one::<64, 1024>(src, dst, l, j0),
        }
    }
}

// Stage one of size 2^log2_size on 2^log2_line lines, where the size is 16, 32 or 64, the lines are 16 or more, and no test is broken; whether
// that is so.
pub fn itxb0(src: &[i16], dst: &mut [i32], log2_size: usize, log2_line: usize) -> bool
    ensures did { result ≡ takes_one 4 6 4 log2_size log2_line src.now dst.old }
    ensures exit { dst.new ≡ done_one result log2_size log2_line src.now dst.old }
{
    if itx_halving::takes(4, 6, 4, src.len(), dst.len(), log2_size, log2_line, 0) {
        ones(src, dst, log2_size, 1usize << log2_line);
        return true;
    }
    false
}
