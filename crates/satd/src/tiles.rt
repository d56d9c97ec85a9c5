// The number of a tile of two blocks, after the Rust's evce_satd_16b. Document 01, "Distortion".
// Differs from the Rust in: one function serves all sides; the tile's differences are handed on by value.
ghost use Rattle.std.specs.Prelude.{◌≡◌, pos, ◌-ℤ◌, get_or, refl};
ghost use Rattle.std.proofs.Common.{inl, inr};
ghost use Rattle.integers.specs.Lists.{tab};
ghost use Rattle.evc.specs.Tiles.{tile_number};
ghost use Rattle.satd_tiles.specs.Passes.{entry};
ghost use Rattle.block_rows.specs.Small.{Tested, apart_from, wrapped};
ghost use Rattle.satd.specs.Sides.{Side};

// A tile's number from its differences, at each side that a tile can have.
pub(crate) trait Tile<const N: usize> {
    fn number(diff: [[i16; N]; N]) -> u32
        ensures { result ≡ tile_number N (entry diff.entry) };

    ghost side: { Side N };
}

pub(crate) struct Had;

impl Tile<8> for Had {
    ghost side = { inl refl };

    fn number(diff: [[i16; 8]; 8]) -> u32
        ensures { result ≡ tile_number 8 (entry diff) }
    {
        satd_tiles::evc_had_8x8(diff)
    }
}

impl Tile<4> for Had {
    ghost side = { inr (inl refl) };

    fn number(diff: [[i16; 4]; 4]) -> u32
        ensures { result ≡ tile_number 4 (entry diff) }
    {
        satd_tiles::evc_had_4x4(diff)
    }
}

impl Tile<2> for Had {
    ghost side = { inr (inr refl) };

    fn number(diff: [[i16; 2]; 2]) -> u32
        ensures { result ≡ tile_number 2 (entry diff) }
    {
        satd_tiles::evc_had_2x2(diff)
    }
}

// One row of a tile's differences.
fn row<const N: usize>(a: &[u16], b: &[u16]) -> [i16; N]
    ensures { result ≡ tab N (λ i. wrapped (pos (get_or a.now i 0) -ℤ pos (get_or b.now i 0))) }
{
    let mut out = [0i16; N];
    block_rows::diff_row(a, b, &mut out[..]);
    out
}

// The tile's number, from all of them.
pub(crate) fn number<const N: usize, T: Tile<N>>(
    a: &[u16],
    a_at: usize,
    a_stride: usize,
    b: &[u16],
    b_at: usize,
    b_stride: usize,
) -> u32
    requires { Tested N N a.now a_at a_stride b.now b_at b_stride }
    ensures { result ≡ tile_number N (apart_from a.now a_at a_stride b.now b_at b_stride) }
{
    let mut out = [[0i16; N]; N];
    for j in 0..N {
        let p = a_at + j * a_stride;
        let q = b_at + j * b_stride;
        let p_end = p + N;
        let q_end = q + N;
        out[j] = row::<N>(&a[p..p_end], &b[q..q_end]);
    }
    T::number(out)
}
