// The number of a tile, after the Rust's evc_had_2x2, evc_had_4x4 and evc_had_8x8. Document 01, "Distortion".
// Differs from the Rust in: the differences are handed in, and one function serves all sides. All coefficients' sizes are added, and the DC's taken
// out again: it has another share.
ghost use Rattle.std.specs.Prelude.{◌≡◌, ◌≤◌};
ghost use Rattle.evc.specs.Tiles.{tile_number};
ghost use Rattle.satd_tiles.specs.Passes.{entry, RowWithin, BlockWithin, row_sizes, block_sizes};

use crate::line::{Butterflies, Line};
use crate::passes::{at, column_pass, row_pass, widened};

// The sizes of a row, and of the block, added.
fn row_sum<const N: usize>(row: &[i32; N]) -> u32
    requires side { N ≤ 8 }
    requires within { RowWithin 2097152 row.now }
    ensures { result ≡ row_sizes N row.now }
{
    let mut s: u32 = 0;
    for x in row {
        s += integers::abs_i32(*x);
    }
    s
}

fn sum<const N: usize>(m: &[[i32; N]; N]) -> u32
    requires side { N ≤ 8 }
    requires within { BlockWithin 2097152 m.now }
    ensures { result ≡ block_sizes N m.now }
{
    let mut s: u32 = 0;
    for row in m {
        s += row_sum(row);
    }
    s
}

// The number of a tile of N by N, from its differences, row after row.
fn number<const N: usize, L: Line<N>>(diff: [[i16; N]; N]) -> u32
    ensures { result ≡ tile_number N (entry diff.entry) }
{
    let m = row_pass::<N, L>(widened(diff));
    let c = column_pass::<N, L>(m);
    let all = sum(&c);
    let dc = integers::abs_i32(at(&c, 0, 0));
    satd_rules::number::<N>(all - dc, dc) as u32
}

pub fn evc_had_8x8(diff: [[i16; 8]; 8]) -> u32
    ensures { result ≡ tile_number 8 (entry diff) }
{
    number::<8, Butterflies>(diff)
}

pub fn evc_had_4x4(diff: [[i16; 4]; 4]) -> u32
    ensures { result ≡ tile_number 4 (entry diff) }
{
    number::<4, Butterflies>(diff)
}

pub fn evc_had_2x2(diff: [[i16; 2]; 2]) -> u32
    ensures { result ≡ tile_number 2 (entry diff) }
{
    number::<2, Butterflies>(diff)
}
