// SATD, after the Rust's evce_satd_16b. Document 01, "Distortion".
// Differs from the Rust in: a call that breaks a test is refused, odd sides too; the depth is an argument.
ghost use Rattle.std.specs.Prelude.{◌≡◌, ◌≤◌, length};
ghost use Rattle.evc.specs.Answers.{reading};
ghost use Rattle.evc.specs.Calls.{satd_16b};
ghost use Rattle.evc.specs.Planes.{plane_of};
ghost use Rattle.plane_tests.specs.Blocks.{TwoBlocks, strided};
ghost use Rattle.satd.specs.Rests.{satd_left};

use block_rows::{BlockPair, any_block};
use evc::Refusal;

// Two blocks of samples, after all other tests: the samples are tested, and only then their differences are formed. The second
// block is packed.
fn of_blocks(
    a: &[u16],
    a_at: usize,
    a_stride: usize,
    b: &[u16],
    w: usize,
    h: usize,
    depth: u8,
) -> Result<u32, Refusal>
    requires two_blocks { TwoBlocks w h (length a.now) a_at a_stride (length b.now) 0 w }
    requires le_depth { (8 ≤ depth) × (depth ≤ 14) }
    ensures { reading result ≡ satd_left w h depth (strided a.now a_at a_stride depth) (strided b.now 0 w depth) }
{
    let any = any_block(&BlockPair {
        a: a,
        a_at: a_at,
        a_stride: a_stride,
        b: b,
        b_at: 0,
        b_stride: w,
        w: w,
        h: h,
    });
    if any >> depth != 0 {
        return Err(Refusal::Sample);
    }
    let sum = crate::sums::total(satd_rules::side(w, h), a, a_at, a_stride, b, w, h);
    let satd = (sum >> (depth - 8)) as u32;
    Ok(satd)
}

pub fn evce_satd_16b(
    org: &[u16],
    width: usize,
    height: usize,
    stride: usize,
    x: usize,
    y: usize,
    w: usize,
    h: usize,
    cur: &[u16],
    depth: u8,
) -> Result<u32, Refusal>
    ensures { reading result ≡ satd_16b (plane_of org.now width height stride) x y w h cur.now depth }
{
    if plane_tests::bad_even_sides(w, h) {
        return Err(Refusal::Size);
    }
    if plane_tests::bad_depth(depth) {
        return Err(Refusal::Depth);
    }
    if plane_tests::outside_plane(org.len(), width, height, stride, x, y, w, h)
        | (cur.len() < h * w)
    {
        return Err(Refusal::Area);
    }
    of_blocks(org, y * stride + x, stride, cur, w, h, depth)
}
