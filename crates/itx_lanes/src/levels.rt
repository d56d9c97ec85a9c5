// The sums of 16 lines side by side, level after level. Document 01, "The two stages". Differs from the Rust in: 16 lines at a time, so that a compiler
// adds several lines in one instruction; a block of 64 rows for every size.
ghost use Rattle.std.specs.Prelude.{◌≡◌, ◌+◌, ◌/◌, ◌≤◌};
ghost use Rattle.integers.specs.Lists.{tab};
ghost use Rattle.itx_table.specs.Flat.{flat};
ghost use Rattle.itx_lanes.specs.Lanes.{AnySize, lane_sum};
ghost use Rattle.itx_lanes.specs.Steps.{All};

use super::base::base;
use super::lanes::{pick, places};

// From size M to size 2M, in all 16 lanes: the places from FROM to TO and their mirrors, in eight stretches. Of 16 places or fewer each is so short that
// a compiler writes its loops out: it then sees which numbers of the table it reads, and needs no table at run time.
fn rows<const M: usize, const FROM: usize, const TO: usize>(
    t: &[i8; 4096],
    s: &[i16; 1024],
    e: &mut [i32],
)
    requires { (t.now ≡ flat) × (All s.now e.old M FROM (32 / M + 32 / M) × ((FROM ≤ TO) × (TO ≤ M))) }
    ensures { All s.now e.new M TO (32 / M) }
{
    let few = (TO - FROM) / 8;
    for j in 0..16 {
        let mut picked = [0i32; M];
        pick(s, &mut picked, M, 32 / M, j);
        let x = &picked[..];
        places(t, x, e, M, FROM, FROM + few, j);
        places(t, x, e, M, FROM + few, FROM + 2 * few, j);
        places(t, x, e, M, FROM + 2 * few, FROM + 3 * few, j);
        places(t, x, e, M, FROM + 3 * few, FROM + 4 * few, j);
        places(t, x, e, M, FROM + 4 * few, FROM + 5 * few, j);
        places(t, x, e, M, FROM + 5 * few, FROM + 6 * few, j);
        places(t, x, e, M, FROM + 6 * few, FROM + 7 * few, j);
        places(t, x, e, M, FROM + 7 * few, TO, j);
    }
}

// The same with the table. `rows` is lent it, and doesn't make it: so a compiler puts the sums in order before it knows the numbers, and needs fewer
// instructions.
fn pass<const M: usize, const FROM: usize, const TO: usize>(s: &[i16; 1024], e: &mut [i32])
    requires { All s.now e.old M FROM (32 / M + 32 / M) × ((FROM ≤ TO) × (TO ≤ M)) }
    ensures { All s.now e.new M TO (32 / M) }
{
    let all = itx_table::table();
    rows::<M, FROM, TO>(&all, s, e);
}

// The sums of size 16, 32 or 64, as the P places say: place n of lane j stands at n·16+j. Any other number of places is left as it is.
pub fn sums<const P: usize>(s: &[i16; 1024], e: &mut [i32; P])
    ensures sized { AnySize P → e.new ≡ tab P (lane_sum (P / 16) s.now) }
    ensures other { (AnySize P → ⊥) → e.new ≡ e.old }
{
    if (P != 256) & (P != 512) & (P != 1024) {
        return;
    }
    base(s, e);
    pass::<8, 0, 8>(s, e);
    if P == 256 {
        return;
    }
    pass::<16, 0, 16>(s, e);
    if P == 512 {
        return;
    }
    pass::<32, 0, 16>(s, e);
    pass::<32, 16, 32>(s, e);
}
