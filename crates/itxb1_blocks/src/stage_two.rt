// Stage two of the inverse transform by blocks of 16 lines: its sums are those of stage one, of the inputs' upper halves and of their rests.
// Document 01, "The two stages".
// Differs from the Rust in: the sums of 16 lines are made side by side, and by `itx_lanes`; the last sum is formed in 64 bits from two of 32; a
// call that breaks a test, of a size below 32 or of fewer lines is not done.
ghost use Rattle.std.specs.Prelude.{◌≡◌, ◌*◌, ◌%◌, ◌≤◌};
ghost use Rattle.integers.specs.Lists.{tab, written};
ghost use Rattle.evc.specs.Table.{tm};
ghost use Rattle.evc.specs.Stages.{stage_two_at};
ghost use Rattle.itx_halving.specs.Lines.{StageRoom};
ghost use Rattle.itx_halving.specs.Taken.{takes_two, done_two};
ghost use Rattle.itx_halving.specs.Blocks.{BlockRoom, Blocked};
ghost use Rattle.itx_table.specs.Columns.{column};
ghost use Rattle.itx_lanes.specs.Lanes.{AnySize};
ghost use Rattle.itxb1_blocks.specs.Halves.{Offsets};

use super::halves::{Rest, Upper, gather};
use super::tail::{Tail, offsets};

// Lines j0 .. j0 + 15 of l, of size N. P is N·16, the places that the sums take.
fn two<const N: usize, const P: usize>(
    src: &[i32],
    c: &[i64; N],
    dst: &mut [i16],
    l: usize,
    j0: usize,
    shift: u8,
)
    requires { ((P ≡ N * 16) × AnySize P) × (Offsets c.now N shift × BlockRoom src.now dst.old N l j0) }
    ensures { Blocked (stage_two_at (tm N) N l shift src.now) dst.old dst.new N j0 }
{
    let mut s = [0i16; 1024];
    gather::<Upper, N>(src, &mut s, l, j0);
    let mut h = [0i32; P];
    itx_lanes::sums(&s, &mut h);
    gather::<Rest, N>(src, &mut s, l, j0);
    let mut a = [0i32; P];
    itx_lanes::sums(&s, &mut a);
    let tail = Tail::<N> {
        h: &h,
        a: &a,
        c,
        shift,
    };
    tail.store(dst, j0);
}

// All lines, block after block, with the column sums of the size. It is never inlined: else its arrays of 4096 bytes stand side by side in the caller's
// memory, a line of `itx_lines` gets its inputs in the one and its sums in the other, and a processor, which takes places 4096 bytes apart for the same
// place, has each load wait for a store.
#[inline(never)]
fn twos<const N: usize, const P: usize>(
    col: &[i32; N],
    src: &[i32],
    dst: &mut [i16],
    l: usize,
    shift: u8,
)
    requires size { (P ≡ N * 16) × AnySize P }
    requires columns { col.now ≡ tab N (column N) }
    requires room { (shift ≤ 31) × (StageRoom src.now dst.old N l × (l % 16 ≡ 0)) }
    ensures { dst.new ≡ written (N * l) (stage_two_at (tm N) N l shift src.now) dst.old }
{
    let mut c = [0i64; N];
    offsets(col, &mut c, itx_halving::rounding(shift));
    for i in 0..l / 16 {
        two::<N, P>(src, &c, dst, l, i * 16, shift);
    }
}

// Stage two of size 2^log2_size on 2^log2_line lines, where the size is 32 or 64, the lines are 16 or more, and no test is broken; whether that
// is so.
pub fn itxb1(src: &[i32], dst: &mut [i16], log2_size: usize, log2_line: usize, shift: u8) -> bool
    ensures did { result ≡ takes_two 5 6 4 log2_size log2_line shift src.now dst.old }
    ensures exit { dst.new ≡ done_two result log2_size log2_line shift src.now dst.old }
{
    if itx_halving::takes(5, 6, 4, src.len(), dst.len(), log2_size, log2_line, shift) {
        let l = 1usize << log2_line;
        if log2_size == 5 {
            twos::<32, 512>(&itx_table::columns32(), src, dst, l, shift);
        } else {
            twos::<64, 1024>(&itx_table::columns64(), src, dst, l, shift);
        }
        return true;
    }
    false
}
