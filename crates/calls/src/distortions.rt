// DIFF, SATD, the SSDs and the SADs.
use crate::answer;
use crate::answer::Answer;
use crate::buffer::Buffers;
use crate::fault::Malformed;
use crate::read::Reader;

pub(crate) fn diff(r: &mut Reader, b: &mut Buffers) -> Result<Answer, Malformed> {
    let [width, height, stride, x, y, log2_w, log2_h]: [usize; 7] = r.numbers()?;
    let depth = r.number()?;
    r.buffer(&mut b.one)?;
    r.buffer(&mut b.two)?;
    r.buffer(&mut b.shorts)?;
    r.end()?;
    let org = b.one.as_slice();
    let cur = b.two.as_slice();
    let diff = b.shorts.as_mut_slice();
    Ok(answer::done(diff::evce_diff_16b(
        org, width, height, stride, x, y, log2_w, log2_h, cur, depth, diff,
    )))
}

pub(crate) fn satd(r: &mut Reader, b: &mut Buffers) -> Result<Answer, Malformed> {
    let [width, height, stride, x, y, w, h]: [usize; 7] = r.numbers()?;
    let depth = r.number()?;
    r.buffer(&mut b.one)?;
    r.buffer(&mut b.two)?;
    r.end()?;
    let org = b.one.as_slice();
    let cur = b.two.as_slice();
    Ok(answer::value(satd::evce_satd_16b(org, width, height, stride, x, y, w, h, cur, depth)))
}

pub(crate) fn ssd_16b(r: &mut Reader, b: &mut Buffers) -> Result<Answer, Malformed> {
    let [width, height, stride, x, y, log2_w, log2_h]: [usize; 7] = r.numbers()?;
    let depth = r.number()?;
    r.buffer(&mut b.one)?;
    r.buffer(&mut b.two)?;
    r.end()?;
    let org = b.one.as_slice();
    let cur = b.two.as_slice();
    Ok(answer::value(ssd::evce_ssd_16b(
        org, width, height, stride, x, y, log2_w, log2_h, cur, depth,
    )))
}

pub(crate) fn ssd_16i(r: &mut Reader, b: &mut Buffers) -> Result<Answer, Malformed> {
    let [width1, height1, stride1]: [usize; 3] = r.numbers()?;
    let [width2, height2, stride2]: [usize; 3] = r.numbers()?;
    let [x, y]: [i16; 2] = r.numbers()?;
    let [log2_w, log2_h]: [usize; 2] = r.numbers()?;
    let depth = r.number()?;
    r.buffer(&mut b.one)?;
    r.buffer(&mut b.two)?;
    r.end()?;
    let one = b.one.as_slice();
    let two = b.two.as_slice();
    Ok(answer::value(ssd::evce_ssd_16i(
        one, width1, height1, stride1, two, width2, height2, stride2, x, y, log2_w, log2_h, depth,
    )))
}

pub(crate) fn sad_16b(r: &mut Reader, b: &mut Buffers) -> Result<Answer, Malformed> {
    let [width, height, stride, x, y]: [usize; 5] = r.numbers()?;
    let [ref_width, ref_height, ref_stride]: [usize; 3] = r.numbers()?;
    let [mv_x, mv_y]: [i16; 2] = r.numbers()?;
    let [w, h]: [usize; 2] = r.numbers()?;
    let depth = r.number()?;
    r.buffer(&mut b.one)?;
    r.buffer(&mut b.two)?;
    r.end()?;
    let org = b.one.as_slice();
    let reference = b.two.as_slice();
    Ok(answer::value(sad::evce_sad_16b(
        org, width, height, stride, x, y, reference, ref_width, ref_height, ref_stride, mv_x, mv_y,
        w, h, depth,
    )))
}

pub(crate) fn sad_bi_16b(r: &mut Reader, b: &mut Buffers) -> Result<Answer, Malformed> {
    let [ref_width, ref_height, ref_stride]: [usize; 3] = r.numbers()?;
    let [mv_x, mv_y]: [i16; 2] = r.numbers()?;
    let [w, h]: [usize; 2] = r.numbers()?;
    let depth = r.number()?;
    r.buffer(&mut b.shorts)?;
    r.buffer(&mut b.one)?;
    r.end()?;
    let bi = b.shorts.as_slice();
    let reference = b.one.as_slice();
    Ok(answer::value(sad_bi::evce_sad_bi_16b(
        bi, reference, ref_width, ref_height, ref_stride, mv_x, mv_y, w, h, depth,
    )))
}

pub(crate) fn sad_16i(r: &mut Reader, b: &mut Buffers) -> Result<Answer, Malformed> {
    let [width, height, stride, x, y, w, h]: [usize; 7] = r.numbers()?;
    let depth = r.number()?;
    r.buffer(&mut b.one)?;
    r.buffer(&mut b.two)?;
    r.end()?;
    let org = b.one.as_slice();
    let pred = b.two.as_slice();
    Ok(answer::value(sad::evce_sad_16i(org, width, height, stride, x, y, w, h, pred, depth)))
}

pub(crate) fn sad_bi_16i(r: &mut Reader, b: &mut Buffers) -> Result<Answer, Malformed> {
    let [w, h]: [usize; 2] = r.numbers()?;
    let depth = r.number()?;
    r.buffer(&mut b.shorts)?;
    r.buffer(&mut b.one)?;
    r.end()?;
    let bi = b.shorts.as_slice();
    let pred = b.one.as_slice();
    Ok(answer::value(sad_bi::evce_sad_bi_16i(bi, pred, w, h, depth)))
}
