// SAD of bi-prediction values, after the Rust's evce_sad_bi_16b and evce_sad_bi_16i. Document 01, "Distortion".
// Differs from the Rust in: a call that breaks a test is refused; the depth is an argument.
ghost use Rattle.std.specs.Prelude.{◌≡◌};
ghost use Rattle.evc.specs.Answers.{reading};
ghost use Rattle.evc.specs.Calls.{sad_bi_16b, sad_bi_16i};
ghost use Rattle.evc.specs.Planes.{plane_of};

use crate::blocks::{total, total_at_edges};
use block_rows::{BlockPair, EdgePair};
use evc::Refusal;

pub fn evce_sad_bi_16b(
    bi: &[i16],
    reference: &[u16],
    ref_width: usize,
    ref_height: usize,
    ref_stride: usize,
    mv_x: i16,
    mv_y: i16,
    w: usize,
    h: usize,
    depth: u8,
) -> Result<u32, Refusal>
    ensures { reading result ≡ sad_bi_16b bi.now (plane_of reference.now ref_width ref_height ref_stride) mv_x mv_y w h depth }
{
    if plane_tests::bad_sides(w, h) {
        return Err(Refusal::Size);
    }
    if plane_tests::bad_depth(depth) {
        return Err(Refusal::Depth);
    }
    if plane_tests::bad_plane(bi.len(), w, h, w) {
        return Err(Refusal::Area);
    }
    if plane_tests::outside_edges(
        reference.len(),
        ref_width,
        ref_height,
        ref_stride,
        mv_x,
        mv_y,
        w,
        h,
    ) {
        return Err(Refusal::Area);
    }
    let t = total_at_edges(&EdgePair {
        org: bi,
        at: 0,
        stride: w,
        reference,
        ref_stride,
        mv_x,
        mv_y,
        w,
        h,
    });
    sad_answer::sad_answer(t.sum, t.any, depth)
}

pub fn evce_sad_bi_16i(
    bi: &[i16],
    pred: &[u16],
    w: usize,
    h: usize,
    depth: u8,
) -> Result<u32, Refusal>
    ensures { reading result ≡ sad_bi_16i bi.now pred.now w h depth }
{
    if plane_tests::bad_sides(w, h) {
        return Err(Refusal::Size);
    }
    if plane_tests::bad_depth(depth) {
        return Err(Refusal::Depth);
    }
    if plane_tests::bad_plane(bi.len(), w, h, w) {
        return Err(Refusal::Area);
    }
    if plane_tests::outside_plane(pred.len(), w, h, w, 0, 0, w, h) {
        return Err(Refusal::Area);
    }
    let t = total(&BlockPair {
        a: bi,
        a_at: 0,
        a_stride: w,
        b: pred,
        b_at: 0,
        b_stride: w,
        w,
        h,
    });
    sad_answer::sad_answer(t.sum, t.any, depth)
}
