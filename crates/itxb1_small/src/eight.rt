// Stage two of size 8: the Rust's `itx_pb8b1`. Document 01, "The two stages".
// Differs from the Rust in: up to 8 lines go together. Their quotients are kept, and then clipped in one run, which vector units do eight at once.
ghost use Rattle.std.specs.Prelude.{◌≡◌, ◌+◌, ◌*◌, ◌≤◌};
ghost use Rattle.integers.specs.Lists.{written};
ghost use Rattle.evc.specs.Table.{tm};
ghost use Rattle.evc.specs.Stages.{stage_two_at};
ghost use Rattle.itx_halving.specs.Lines.{Next, StageRoom};
ghost use Rattle.itxb1_small.specs.Groups.{Group, group_of, groups_of, quotient_at};

use super::store::{store_clipped, store_quotients};
use super::wide::line8;
use itx_halving::Tail;

// The m lines from line j0 of l on.
fn rows(src: &[i32], z: &mut [i32], l: usize, j0: usize, m: usize, r: Tail)
    requires { Group src.now z.old l j0 m }
    ensures { z.new ≡ written (8 * m) (λ i. quotient_at l r.shift src.now (j0 * 8 + i)) z.old }
{
    for j in 0..m {
        let t = itx_table::table();
        let y = line8(&t, 512, src, l, j0 + j, r.add);
        store_quotients(&y, z, 8, j, r.shift);
    }
}

// Those lines, kept and then clipped.
fn group(src: &[i32], dst: &mut [i16], l: usize, j0: usize, m: usize, r: Tail)
    requires { (m ≤ 8) × ((j0 + m ≤ l) × StageRoom src.now dst.old 8 l) }
    ensures { Next dst.old dst.new (j0 * 8) (8 * m) (λ i. stage_two_at (tm 8) 8 l r.shift src.now (j0 * 8 + i)) }
{
    let mut z = [0i32; 64];
    rows(src, &mut z, l, j0, m, r);
    store_clipped(&z, dst, 8 * m, j0 * 8);
}

// All lines: n groups of m, at most 8.
pub(crate) fn rows8(src: &[i32], dst: &mut [i16], l: usize, r: Tail)
    requires { (groups_of l * group_of l ≡ l) × StageRoom src.now dst.old 8 l }
    ensures { dst.new ≡ written (8 * l) (stage_two_at (tm 8) 8 l r.shift src.now) dst.old }
{
    let m = l.min(8);
    let n = (l + 7) / 8;
    for i in 0..n {
        group(src, dst, l, i * m, m, r);
    }
}
