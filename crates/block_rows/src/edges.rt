// Positions that may be negative: each negative row or column reads as 0, sample by sample. Document 01, "Distortion": where the Rust takes the larger
// of a position and 0.
// Differs from the Rust in: positions are added in 32 bits, so that nothing wraps at 32767; a row is read once, before it is compared.
ghost use Rattle.std.specs.Prelude.{◌≡◌, ◌||◌, ◌≤◌, pos, ◌+ℤ◌, length, get_or};
ghost use Rattle.std.specs.Int.Signed.{lt_z};
ghost use Rattle.integers.specs.Lists.{tab};
ghost use Rattle.evc.specs.Planes as plane;
ghost use Rattle.block_rows.specs.Edges.{behind, row_at_edge};

use crate::Place;

// Where the i-th position from p on reads: the larger of it and 0.
fn edge(p: i16, i: u16) -> usize
    ensures { result ≡ plane.edge (p +ℤ pos i) }
{
    let at = (p as i32) + (i as i32);
    at.max(0) as usize
}

// Where row j of the block at (x, y) starts: a negative row reads as row 0, and a negative column as column 0.
pub fn row_start(x: i16, y: i16, j: u16) -> Place
    ensures { (result.row ≡ plane.edge (y +ℤ pos j)) × (result.column ≡ plane.edge (x +ℤ pos 0)) }
{
    Place {
        row: edge(y, j),
        column: edge(x, 0),
    }
}

// Either position is negative.
pub fn negative(x: i16, y: i16) -> bool
    ensures { result ≡ lt_z x (pos 0) || lt_z y (pos 0) }
{
    x < 0 || y < 0
}

// How many positions from x on are negative.
fn below(x: i16) -> usize
    ensures { (result ≡ behind x) × (result ≤ 32768) }
{
    if x < 0 { (0 - (x as i32)) as usize } else { 0 }
}

// A row's sample; past its end, which no block reaches, 0.
pub(crate) fn sample(row: &[u16], at: usize) -> u16
    ensures { result ≡ get_or row.now at 0 }
{
    if at < row.len() { row[at] } else { 0 }
}

// A row's samples at the columns from x on: its first at each negative one, then those from the edge on, and zeros past its end. The loops copy
// runs of samples, which compilers turn into vector code.
fn long_row(row: &[u16], x: i16, out: &mut [u16])
    ensures { out.new ≡ tab (length out.old) (row_at_edge row.now x) }
{
    let w = out.len();
    let up = edge(x, 0);
    let n = below(x).min(w);
    let m = n + row.len().saturating_sub(up).min(w - n);
    let head = sample(row, 0);
    for i in 0..n {
        out[i] = head;
    }
    for i in n..m {
        out[i] = row[up + (i - n)];
    }
    for i in m..w {
        out[i] = 0;
    }
}

// The same, sample by sample: for rows that are too short for vector code.
fn short_row(row: &[u16], x: i16, out: &mut [u16])
    requires { length out.old ≤ 4 }
    ensures { out.new ≡ tab (length out.old) (row_at_edge row.now x) }
{
    for i in 0..out.len() {
        out[i] = sample(row, edge(x, i as u16));
    }
}

// The same, by the one that suits the width.
pub fn edge_row(row: &[u16], x: i16, out: &mut [u16])
    ensures { out.new ≡ tab (length out.old) (row_at_edge row.now x) }
{
    if out.len() <= 4 {
        short_row(row, x, &mut out[..]);
    } else {
        long_row(row, x, &mut out[..]);
    }
}
