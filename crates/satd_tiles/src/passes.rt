// The passes of a tile of any side. Document 01, "Distortion".
// Differs from the Rust in: the row pass, which adds and subtracts whole rows, is the Rust's vertical step and comes first, so that the block is
// turned only once, by the column pass.
ghost use Rattle.std.specs.Prelude.{◌≡◌, ◌<◌};
ghost use Rattle.integers.specs.Lists.{tab};
ghost use Rattle.satd_tiles.specs.Passes.{entry, BlockWithin, RowsPassed, Passed};

use crate::line::Line;

// Row j, column i of a block, and the same of the differences, in 32 bits.
pub(crate) fn at<const N: usize>(m: &[[i32; N]; N], j: usize, i: usize) -> i32
    requires { (j < N) × (i < N) }
    ensures { result ≡ entry m.now j i }
{
    m[j][i]
}

fn wide<const N: usize>(diff: &[[i16; N]; N], j: usize, i: usize) -> i32
    requires { (j < N) × (i < N) }
    ensures { result ≡ entry diff.now j i }
{
    diff[j][i] as i32
}

// Row j of the differences, and all of them, in 32 bits.
fn wide_row<const N: usize>(diff: &[[i16; N]; N], j: usize) -> [i32; N]
    requires { j < N }
    ensures { result ≡ tab N (entry diff.now j) }
{
    let mut out = [0i32; N];
    for i in 0..N {
        out[i] = wide(diff, j, i);
    }
    out
}

pub(crate) fn widened<const N: usize>(diff: [[i16; N]; N]) -> [[i32; N]; N]
    ensures { result ≡ diff.entry }
{
    let mut out = [[0i32; N]; N];
    for j in 0..N {
        out[j] = wide_row(&diff, j);
    }
    out
}

// Row j and column i of a block.
fn row<const N: usize>(m: &[[i32; N]; N], j: usize) -> [i32; N]
    requires { j < N }
    ensures { result ≡ tab N (entry m.now j) }
{
    let mut x = [0i32; N];
    for i in 0..N {
        x[i] = at(m, j, i);
    }
    x
}

fn column<const N: usize>(m: &[[i32; N]; N], i: usize) -> [i32; N]
    requires { i < N }
    ensures { result ≡ tab N (λ j. entry m.now j i) }
{
    let mut x = [0i32; N];
    for j in 0..N {
        x[j] = at(m, j, i);
    }
    x
}

// The row pass adds and subtracts the rows: row a of the result is the sum of all rows, each with its sign. A difference needs 16 bits, and a
// sum of up to eight of them 3 more.
pub(crate) fn row_pass<const N: usize, L: Line<N>>(block: [[i32; N]; N]) -> [[i32; N]; N]
    requires { BlockWithin 32768 block }
    ensures { RowsPassed N 262144 block.entry result }
{
    let mut out = [[0i32; N]; N];
    for i in 0..N {
        L::put(&mut out, i, column(&block, i));
    }
    out
}

// The column pass takes on what the row pass made, and does the same with its columns, which it turns: row b of the result is the sum of all
// columns, each with its sign.
pub(crate) fn column_pass<const N: usize, L: Line<N>>(m: [[i32; N]; N]) -> [[i32; N]; N]
    requires { BlockWithin 262144 m }
    ensures { Passed N 2097152 m.entry result }
{
    let mut out = [[0i32; N]; N];
    for j in 0..N {
        L::put(&mut out, j, row(&m, j));
    }
    out
}
