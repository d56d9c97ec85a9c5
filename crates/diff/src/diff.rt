// DIFF, after the Rust's evce_diff_16b. Document 01, "Distortion".
// Differs from the Rust in: a call that breaks a test is refused, and nothing is written before all samples are tested; the depth is an
// argument.
ghost use Rattle.std.specs.Prelude.{◌≡◌, ◌*◌, ◌≤◌, length};
ghost use Rattle.integers.specs.Lists.{written};
ghost use Rattle.evc.specs.Answers.{answer_number};
ghost use Rattle.evc.specs.Planes.{plane_of};
ghost use Rattle.evc.specs.Differences.{diff_at};
ghost use Rattle.evc.specs.Calls.{diff_16b_number, diff_16b_exit};
ghost use Rattle.plane_tests.specs.Blocks.{strided};
ghost use Rattle.block_rows.specs.Small.{SmallBlocks, apart_from};
ghost use Rattle.diff.specs.Rests.{Differed};

use block_rows::{BlockPair, any_block, diff_row};
use evc::Refusal;

// The differences of two blocks, row after row.
fn diff_rows(pair: &BlockPair<u16>, w: usize, h: usize, out: &mut [i16])
    requires width { w ≡ pair.now.w }
    requires height { h ≡ pair.now.h }
    requires small { SmallBlocks w h pair.now.a.now pair.now.a_at pair.now.a_stride pair.now.b.now pair.now.b_at pair.now.b_stride }
    requires room { h * w ≤ length out.old }
    ensures { out.new ≡ written (h * w) (diff_at w (apart_from pair.now.a.now pair.now.a_at pair.now.a_stride pair.now.b.now pair.now.b_at pair.now.b_stride)) out.old }
{
    for j in 0..h {
        let p = pair.a_at + j * pair.a_stride;
        let q = pair.b_at + j * pair.b_stride;
        let r = j * w;
        let p_end = p + w;
        let q_end = q + w;
        let r_end = r + w;
        diff_row(&pair.a[p..p_end], &pair.b[q..q_end], &mut out[r..r_end]);
    }
}

// The same: common widths are literals, for which compilers write straight vector code. At 32 the code for any width is the shorter one.
fn diff_block(pair: &BlockPair<u16>, out: &mut [i16])
    requires small { SmallBlocks pair.now.w pair.now.h pair.now.a.now pair.now.a_at pair.now.a_stride pair.now.b.now pair.now.b_at pair.now.b_stride }
    requires room { pair.now.h * pair.now.w ≤ length out.old }
    ensures { out.new ≡ written (pair.now.h * pair.now.w) (diff_at pair.now.w (apart_from pair.now.a.now pair.now.a_at pair.now.a_stride pair.now.b.now pair.now.b_at pair.now.b_stride)) out.old }
{
    let h = pair.h;
    match pair.w {
        64 => diff_rows(pair, 64, h, out),
        16 => diff_rows(pair, 16, h, out),
        8 => diff_rows(pair, 8, h, out),
        4 if h == 4 => diff_rows(pair, 4, 4, out),
        4 => diff_rows(pair, 4, h, out),
        2 => diff_rows(pair, 2, h, out),
        w => diff_rows(pair, w, h, out),
    }
}

// Two blocks of samples, after all other tests: the samples are tested, and only then the differences are written.
fn of_blocks(pair: &BlockPair<u16>, depth: u8, out: &mut [i16]) -> Result<(), Refusal>
    requires deep { depth ≤ 14 }
    requires room { pair.now.h * pair.now.w ≤ length out.old }
    ensures { Differed pair.now.w pair.now.h (strided pair.now.a.now pair.now.a_at pair.now.a_stride depth) (strided pair.now.b.now pair.now.b_at pair.now.b_stride depth) out.old (answer_number result) out.new }
{
    let any = any_block(pair);
    if any >> depth != 0 {
        return Err(Refusal::Sample);
    }
    diff_block(pair, out);
    Ok(())
}

pub fn evce_diff_16b(
    org: &[u16],
    width: usize,
    height: usize,
    stride: usize,
    x: usize,
    y: usize,
    log2_w: usize,
    log2_h: usize,
    cur: &[u16],
    depth: u8,
    diff: &mut [i16],
) -> Result<(), Refusal>
    ensures answer { answer_number result ≡ diff_16b_number (length diff.old) (plane_of org.now width height stride) x y log2_w log2_h cur.now depth }
    ensures exit { diff.new ≡ diff_16b_exit (plane_of org.now width height stride) x y log2_w log2_h cur.now depth diff.old }
{
    if plane_tests::bad_logs(log2_w, log2_h) {
        return Err(Refusal::Size);
    }
    let w = 1usize << log2_w;
    let h = 1usize << log2_h;
    if plane_tests::bad_depth(depth) {
        return Err(Refusal::Depth);
    }
    let n = h * w;
    if plane_tests::outside_plane(org.len(), width, height, stride, x, y, w, h)
        | (cur.len() < n)
        | (diff.len() < n)
    {
        return Err(Refusal::Area);
    }
    let pair = BlockPair {
        a: org,
        a_at: y * stride + x,
        a_stride: stride,
        b: cur,
        b_at: 0,
        b_stride: w,
        w,
        h,
    };
    of_blocks(&pair, depth, diff)
}
