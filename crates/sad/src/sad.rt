// SAD, after the Rust's evce_sad_16b and evce_sad_16i. Document 01, "Distortion".
// Differs from the Rust in: a call that breaks a test is refused; the depth is an argument.
ghost use Rattle.std.specs.Prelude.{◌≡◌, ◌*◌, bit_or};
ghost use Rattle.evc.specs.Answers.{reading};
ghost use Rattle.evc.specs.Calls.{sad_16b, sad_16i};
ghost use Rattle.evc.specs.Planes.{plane_of};
ghost use Rattle.plane_tests.specs.Blocks.{cell};
ghost use Rattle.block_rows.specs.Edges.{edge_cell};
ghost use Rattle.block_rows.specs.Totals.{BlocksTotalled, apart};

use crate::rows::Sad;
use block_rows::{BlockPair, EdgePair, Totals, compare_at_edges, compare_blocks};
use evc::Refusal;

// What two blocks add up to; where neither position is negative, the second is compared where it stands.
fn total(pair: &EdgePair<u16>) -> Totals
    ensures { BlocksTotalled (64 * (64 * 65535)) apart bit_or pair.now.w pair.now.h (cell 0 pair.now.org.now pair.now.at pair.now.stride) (edge_cell pair.now.reference.now pair.now.ref_stride pair.now.mv_x pair.now.mv_y) result.sum result.any }
{
    match pair.standing() {
        Some(blocks) => compare_blocks(Sad, &blocks),
        None => compare_at_edges(Sad, pair),
    }
}

pub fn evce_sad_16b(
    org: &[u16],
    width: usize,
    height: usize,
    stride: usize,
    x: usize,
    y: usize,
    reference: &[u16],
    ref_width: usize,
    ref_height: usize,
    ref_stride: usize,
    mv_x: i16,
    mv_y: i16,
    w: usize,
    h: usize,
    depth: u8,
) -> Result<u32, Refusal>
    ensures { reading result
        ≡ sad_16b (plane_of org.now width height stride) x y
        (plane_of reference.now ref_width ref_height ref_stride) mv_x mv_y w h depth }
{
    if plane_tests::bad_sides(w, h) {
        return Err(Refusal::Size);
    }
    if plane_tests::bad_depth(depth) {
        return Err(Refusal::Depth);
    }
    if plane_tests::outside_plane(org.len(), width, height, stride, x, y, w, h) {
        return Err(Refusal::Area);
    }
    if plane_tests::outside_edges(
        reference.len(),
        ref_width,
        ref_height,
        ref_stride,
        mv_x,
        mv_y,
        w,
        h,
    ) {
        return Err(Refusal::Area);
    }
    let t = total(&EdgePair {
        org,
        at: y * stride + x,
        stride,
        reference,
        ref_stride,
        mv_x,
        mv_y,
        w,
        h,
    });
    sad_answer::sad_answer(t.sum, t.any, depth)
}

pub fn evce_sad_16i(
    org: &[u16],
    width: usize,
    height: usize,
    stride: usize,
    x: usize,
    y: usize,
    w: usize,
    h: usize,
    pred: &[u16],
    depth: u8,
) -> Result<u32, Refusal>
    ensures { reading result ≡ sad_16i (plane_of org.now width height stride) x y w h pred.now depth }
{
    if plane_tests::bad_sides(w, h) {
        return Err(Refusal::Size);
    }
    if plane_tests::bad_depth(depth) {
        return Err(Refusal::Depth);
    }
    if plane_tests::outside_plane(org.len(), width, height, stride, x, y, w, h) {
        return Err(Refusal::Area);
    }
    if plane_tests::outside_plane(pred.len(), w, h, w, 0, 0, w, h) {
        return Err(Refusal::Area);
    }
    let t = compare_blocks(
        Sad,
        &BlockPair {
            a: org,
            a_at: y * stride + x,
            a_stride: stride,
            b: pred,
            b_at: 0,
            b_stride: w,
            w,
            h,
        },
    );
    sad_answer::sad_answer(t.sum, t.any, depth)
}
