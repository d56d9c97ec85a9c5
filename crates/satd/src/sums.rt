// The numbers of the tiles of two blocks, added, after the loops of the Rust's evce_satd_16b. Document 01, "Distortion". The second block is packed.
// Differs from the Rust in: the tiles of every side share their loops.
ghost use Rattle.std.specs.Prelude.{◌≡◌, ◌/◌};
ghost use Rattle.integers.specs.Sum.{sum_n};
ghost use Rattle.evc.specs.Tiles.{tile_number, tile, satd_total};
ghost use Rattle.block_rows.specs.Small.{Tested, apart_from};
ghost use Rattle.satd.specs.Sides.{Side};

use crate::tiles::{Had, Tile};

// The numbers of a row of tiles, added.
#[inline(always)]
fn across<const N: usize, T: Tile<N>>(
    a: &[u16],
    a_at: usize,
    a_stride: usize,
    b: &[u16],
    b_at: usize,
    w: usize,
) -> u64
    requires { Tested w N a.now a_at a_stride b.now b_at w }
    ensures { result ≡ sum_n (w / N) (λ u. tile_number N (tile N (apart_from a.now a_at a_stride b.now b_at w) 0 u)) }
{
    let mut sum: u64 = 0;
    for u in 0..w / N {
        let x = u * N;
        sum += crate::tiles::number::<N, T>(a, a_at + x, a_stride, b, b_at + x, w) as u64;
    }
    sum
}

// The numbers of all tiles, added row by row.
#[inline(always)]
fn down<const N: usize, T: Tile<N>>(
    a: &[u16],
    a_at: usize,
    a_stride: usize,
    b: &[u16],
    w: usize,
    h: usize,
) -> u64
    requires { Tested w h a.now a_at a_stride b.now 0 w }
    ensures { result ≡ satd_total N w h (apart_from a.now a_at a_stride b.now 0 w) }
{
    let mut sum: u64 = 0;
    for v in 0..h / N {
        let y = v * N;
        sum += across::<N, T>(a, a_at + y * a_stride, a_stride, b, y * w, w);
    }
    sum
}

// The same. Where a row has one tile, the width is the side's own number: compilers then add the tile without the loop over a row's tiles, which costs
// more than the tile.
fn sized<const N: usize, T: Tile<N>>(
    a: &[u16],
    a_at: usize,
    a_stride: usize,
    b: &[u16],
    w: usize,
    h: usize,
) -> u64
    requires { Tested w h a.now a_at a_stride b.now 0 w }
    ensures { result ≡ satd_total N w h (apart_from a.now a_at a_stride b.now 0 w) }
{
    if w == N {
        return down::<N, T>(a, a_at, a_stride, b, N, h);
    }
    down::<N, T>(a, a_at, a_stride, b, w, h)
}

// The same, of the side that the tiles have.
pub(crate) fn total(
    side: usize,
    a: &[u16],
    a_at: usize,
    a_stride: usize,
    b: &[u16],
    w: usize,
    h: usize,
) -> u64
    requires side { Side side }
    requires tested { Tested w h a.now a_at a_stride b.now 0 w }
    ensures { result ≡ satd_total side w h (apart_from a.now a_at a_stride b.now 0 w) }
{
    match side {
        8 => sized::<8, Had>(a, a_at, a_stride, b, w, h),
        4 => sized::<4, Had>(a, a_at, a_stride, b, w, h),
        _ => sized::<2, Had>(a, a_at, a_stride, b, w, h),
    }
}
