// What SATD decides of its tiles: their side, and a tile's number from the sizes of its coefficients. Document 01, "Distortion".
// 64 bits hold the sum of any sizes, so that every call has its answer.
#![tactic(auto)]

ghost use Rattle.std.specs.Prelude.{◌≡◌, ◌⊎◌, ◌+◌, ◌/◌, ◌^◌, ◌<◌, ◌≤◌};
ghost use Rattle.evc.specs.Tiles as of;

// Both sides are multiples of n.
fn multiples(n: usize, w: usize, h: usize) -> bool
    requires { 1 ≤ n }
    ensures { result ≡ of.multiples n w h }
{
    (w % n == 0) & (h % n == 0)
}

// The side of a block's tiles: the largest that fits both sides.
#[tactic(auto, unfolding(evc::specs::Tiles::tile_side))]
pub fn side(w: usize, h: usize) -> usize
    ensures { result ≡ of.tile_side w h }
{
    if multiples(8, w, h) {
        return 8;
    }
    if multiples(4, w, h) {
        return 4;
    }
    2
}

// The number of a tile of N by N: a quarter of the DC's size and the other sizes, added, and rounded by the side. Of tiles of 8 and of 4 it fits 32 bits,
// whatever the sizes.
pub fn number<const N: usize>(others: u32, dc: u32) -> u64
    ensures rounded { result ≡ of.rounded N (others + dc / 4) }
    ensures fits { (N ≡ 8) ⊎ (N ≡ 4) → result < 2 ^ 32 }
{
    let sum = (others as u64) + ((dc / 4) as u64);
    match N {
        8 => (sum + 2) / 4,
        4 => (sum + 1) / 2,
        _ => sum,
    }
}
