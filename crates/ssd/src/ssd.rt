// SSD, after the Rust's evce_ssd_16b and evce_ssd_16i. Document 01, "Distortion".
// Differs from the Rust in: a call that breaks a test is refused; the depth is an argument.
ghost use Rattle.std.specs.Prelude.{◌≡◌, [], ◌∷◌, ◌^◌, ◌<◌, ◌≤◌, leb, pos};
ghost use Rattle.evc.specs.Answers.{reading};
ghost use Rattle.evc.specs.declared.Refusal.TheVariants as number;
ghost use Rattle.evc.specs.Tests.{first, reply, ◌when◌};
ghost use Rattle.evc.specs.Calls.{ssd_16b, ssd_16i};
ghost use Rattle.evc.specs.Planes.{plane_of};

use crate::edges::TwoEdges;
use crate::rows::{Ssd, ssd_block};
use block_rows::{BlockPair, Totals};
use evc::Refusal;

// Every SSD ends here: a sample that is too large leaves a bit at or above the depth. The test stands here, since by a call of `bad_samples` the rows
// at negative positions take more instructions.
fn end(t: Totals, depth: u8) -> Result<i64, Refusal>
    requires { (depth ≤ 14) × (t.sum < 2 ^ 63) }
    ensures { reading result ≡ reply (first ((number.Sample when leb (2 ^ depth) t.any) ∷ [])) (pos t.sum) }
{
    if t.any >> depth != 0 {
        return Err(Refusal::Sample);
    }
    let ssd = t.sum as i64;
    Ok(ssd)
}

pub fn evce_ssd_16b(
    org: &[u16],
    width: usize,
    height: usize,
    stride: usize,
    x: usize,
    y: usize,
    log2_w: usize,
    log2_h: usize,
    cur: &[u16],
    depth: u8,
) -> Result<i64, Refusal>
    ensures { reading result ≡ ssd_16b (plane_of org.now width height stride) x y log2_w log2_h cur.now depth }
{
    if plane_tests::bad_logs(log2_w, log2_h) {
        return Err(Refusal::Size);
    }
    let w = 1usize << log2_w;
    let h = 1usize << log2_h;
    if plane_tests::bad_depth(depth) {
        return Err(Refusal::Depth);
    }
    if plane_tests::outside_plane(org.len(), width, height, stride, x, y, w, h) {
        return Err(Refusal::Area);
    }
    if plane_tests::outside_plane(cur.len(), w, h, w, 0, 0, w, h) {
        return Err(Refusal::Area);
    }
    let t = ssd_block(
        Ssd { depth },
        &BlockPair {
            a: org,
            a_at: y * stride + x,
            a_stride: stride,
            b: cur,
            b_at: 0,
            b_stride: w,
            w,
            h,
        },
    );
    end(t, depth)
}

pub fn evce_ssd_16i(
    one: &[u16],
    width1: usize,
    height1: usize,
    stride1: usize,
    two: &[u16],
    width2: usize,
    height2: usize,
    stride2: usize,
    x: i16,
    y: i16,
    log2_w: usize,
    log2_h: usize,
    depth: u8,
) -> Result<i64, Refusal>
    ensures { reading result ≡ ssd_16i (plane_of one.now width1 height1 stride1) (plane_of two.now width2 height2 stride2) x y log2_w log2_h depth }
{
    if plane_tests::bad_logs(log2_w, log2_h) {
        return Err(Refusal::Size);
    }
    let w = 1usize << log2_w;
    let h = 1usize << log2_h;
    if plane_tests::bad_depth(depth) {
        return Err(Refusal::Depth);
    }
    if plane_tests::outside_edges(one.len(), width1, height1, stride1, x, y, w, h) {
        return Err(Refusal::Area);
    }
    if plane_tests::outside_edges(two.len(), width2, height2, stride2, x, y, w, h) {
        return Err(Refusal::Area);
    }
    let t = crate::edges::total(
        Ssd { depth },
        &TwoEdges {
            one,
            stride1,
            two,
            stride2,
            x,
            y,
            w,
            h,
        },
    );
    end(t, depth)
}
