// Where the halving starts: the sizes 2, 4 and 8, lane after lane.
ghost use Rattle.std.specs.Prelude.{◌≡◌, ◌<◌, ◌≤◌, length};
ghost use Rattle.itx_table.specs.Flat.{flat};
ghost use Rattle.itx_lanes.specs.Steps.{First, Moved, Sized};

use super::lanes::{pick, places};

// The product of size 2 at place n.
fn first(t: &[i8; 4096], s: &[i16; 1024], n: usize, j: usize) -> i32
    requires { (t.now ≡ flat) × (n < 64) × (j < 16) }
    ensures { First s.now n j result }
{
    (t[n] as i32) * (s[j] as i32) + (t[2048 + n] as i32) * (s[512 + j] as i32)
}

// Size 2.
fn lane2(t: &[i8; 4096], s: &[i16; 1024], e: &mut [i32], j: usize)
    requires { (t.now ≡ flat) × (256 ≤ length e.old) × (j < 16) }
    ensures { Moved e.old s.now e.new 2 0 j }
{
    e[j] = first(t, s, 0, j);
    e[16 + j] = first(t, s, 1, j);
}

// All 16 lanes, from nothing to size 8.
pub(crate) fn base(s: &[i16; 1024], e: &mut [i32])
    requires { 256 ≤ length e.old }
    ensures { Sized s.now e.new 8 }
{
    let all = itx_table::table();
    for j in 0..16 {
        let t = &all;
        lane2(t, s, e, j);
        let mut x = [0i32; 2];
        pick(s, &mut x, 2, 16, j);
        places(t, &x, e, 2, 0, 2, j);
        let mut y = [0i32; 4];
        pick(s, &mut y, 4, 8, j);
        places(t, &y, e, 4, 0, 4, j);
    }
}
