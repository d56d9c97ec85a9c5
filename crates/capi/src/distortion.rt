// The distortion calls.
ghost use Rattle.std.specs.Prelude.{◌≡◌, length};
ghost use Rattle.evc.specs.Calls.{diff_16b_number, diff_16b_exit, satd_16b, ssd_16b, ssd_16i, sad_16b, sad_bi_16b, sad_16i, sad_bi_16i};
ghost use Rattle.evc.specs.Planes.{plane_of};
ghost use Rattle.boundary.specs.Told.{Told};

use boundary::{answer_number, tell};

#[unsafe(no_mangle)]
pub extern "C" fn tv_diff(
    org: &[u16],
    width: usize,
    height: usize,
    stride: usize,
    x: usize,
    y: usize,
    log2_w: usize,
    log2_h: usize,
    cur: &[u16],
    depth: u8,
    diff: &mut [i16],
) -> u8
    ensures number { result ≡ diff_16b_number (length diff.old) (plane_of org.now width height stride) x y log2_w log2_h cur.now depth }
    ensures exit { diff.new ≡ diff_16b_exit (plane_of org.now width height stride) x y log2_w log2_h cur.now depth diff.old }
{
    answer_number(diff::evce_diff_16b(
        org, width, height, stride, x, y, log2_w, log2_h, cur, depth, diff,
    ))
}

#[unsafe(no_mangle)]
pub extern "C" fn tv_satd(
    org: &[u16],
    width: usize,
    height: usize,
    stride: usize,
    x: usize,
    y: usize,
    w: usize,
    h: usize,
    cur: &[u16],
    depth: u8,
    value: &mut u32,
) -> u8
    ensures { Told (satd_16b (plane_of org.now width height stride) x y w h cur.now depth) value.old value.new result }
{
    tell(
        satd::evce_satd_16b(org, width, height, stride, x, y, w, h, cur, depth),
        value,
    )
}

#[unsafe(no_mangle)]
pub extern "C" fn tv_ssd_16b(
    org: &[u16],
    width: usize,
    height: usize,
    stride: usize,
    x: usize,
    y: usize,
    log2_w: usize,
    log2_h: usize,
    cur: &[u16],
    depth: u8,
    value: &mut i64,
) -> u8
    ensures { Told (ssd_16b (plane_of org.now width height stride) x y log2_w log2_h cur.now depth) value.old value.new result }
{
    tell(
        ssd::evce_ssd_16b(org, width, height, stride, x, y, log2_w, log2_h, cur, depth),
        value,
    )
}

#[unsafe(no_mangle)]
pub extern "C" fn tv_ssd_16i(
    one: &[u16],
    width1: usize,
    height1: usize,
    stride1: usize,
    two: &[u16],
    width2: usize,
    height2: usize,
    stride2: usize,
    x: i16,
    y: i16,
    log2_w: usize,
    log2_h: usize,
    depth: u8,
    value: &mut i64,
) -> u8
    ensures { Told
        (ssd_16i (plane_of one.now width1 height1 stride1) (plane_of two.now width2 height2 stride2) x y log2_w log2_h depth)
        value.old value.new result }
{
    tell(
        ssd::evce_ssd_16i(
            one, width1, height1, stride1, two, width2, height2, stride2, x, y, log2_w, log2_h,
            depth,
        ),
        value,
    )
}

#[unsafe(no_mangle)]
pub extern "C" fn tv_sad_16b(
    org: &[u16],
    width: usize,
    height: usize,
    stride: usize,
    x: usize,
    y: usize,
    reference: &[u16],
    ref_width: usize,
    ref_height: usize,
    ref_stride: usize,
    mv_x: i16,
    mv_y: i16,
    w: usize,
    h: usize,
    depth: u8,
    value: &mut u32,
) -> u8
    ensures { Told
        (sad_16b (plane_of org.now width height stride) x y (plane_of reference.now ref_width ref_height ref_stride) mv_x mv_y w h depth)
        value.old value.new result }
{
    tell(
        sad::evce_sad_16b(
            org, width, height, stride, x, y, reference, ref_width, ref_height, ref_stride, mv_x,
            mv_y, w, h, depth,
        ),
        value,
    )
}

#[unsafe(no_mangle)]
pub extern "C" fn tv_sad_bi_16b(
    bi: &[i16],
    reference: &[u16],
    ref_width: usize,
    ref_height: usize,
    ref_stride: usize,
    mv_x: i16,
    mv_y: i16,
    w: usize,
    h: usize,
    depth: u8,
    value: &mut u32,
) -> u8
    ensures { Told (sad_bi_16b bi.now (plane_of reference.now ref_width ref_height ref_stride) mv_x mv_y w h depth) value.old value.new result }
{
    tell(
        sad_bi::evce_sad_bi_16b(
            bi, reference, ref_width, ref_height, ref_stride, mv_x, mv_y, w, h, depth,
        ),
        value,
    )
}

#[unsafe(no_mangle)]
pub extern "C" fn tv_sad_16i(
    org: &[u16],
    width: usize,
    height: usize,
    stride: usize,
    x: usize,
    y: usize,
    w: usize,
    h: usize,
    pred: &[u16],
    depth: u8,
    value: &mut u32,
) -> u8
    ensures { Told (sad_16i (plane_of org.now width height stride) x y w h pred.now depth) value.old value.new result }
{
    tell(
        sad::evce_sad_16i(org, width, height, stride, x, y, w, h, pred, depth),
        value,
    )
}

#[unsafe(no_mangle)]
pub extern "C" fn tv_sad_bi_16i(
    bi: &[i16],
    pred: &[u16],
    w: usize,
    h: usize,
    depth: u8,
    value: &mut u32,
) -> u8
    ensures { Told (sad_bi_16i bi.now pred.now w h depth) value.old value.new result }
{
    tell(sad_bi::evce_sad_bi_16i(bi, pred, w, h, depth), value)
}
