// The calls of the dequantizer, the two stages, the block job and the sub-block; the last two are also called with a report.
use crate::answer;
use crate::answer::{Answer, Refused};
use crate::buffer::Buffers;
use crate::fault::Malformed;
use crate::read::Reader;
use crate::report::Broken;
use evc::{Job, Report, SubBlock};

pub(crate) fn scale(r: &mut Reader) -> Result<Answer, Malformed> {
    let qp = r.number()?;
    r.end()?;
    Ok(answer::value(scaling::scale(qp)))
}

pub(crate) fn dquant(r: &mut Reader, b: &mut Buffers) -> Result<Answer, Malformed> {
    let [log2_w, log2_h]: [usize; 2] = r.numbers()?;
    let [scale, offset]: [i32; 2] = r.numbers()?;
    let shift = r.number()?;
    r.buffer(&mut b.shorts)?;
    r.end()?;
    let coef = b.shorts.as_mut_slice();
    Ok(answer::done(dquant::evc_dquant(coef, log2_w, log2_h, scale, offset, shift)))
}

pub(crate) fn itxb0(r: &mut Reader, b: &mut Buffers) -> Result<Answer, Malformed> {
    let [log2_size, log2_line]: [usize; 2] = r.numbers()?;
    r.buffer(&mut b.shorts)?;
    r.buffer(&mut b.words)?;
    r.end()?;
    let src = b.shorts.as_slice();
    let dst = b.words.as_mut_slice();
    Ok(answer::done(itx::itxb0(src, dst, log2_size, log2_line)))
}

pub(crate) fn itxb1(r: &mut Reader, b: &mut Buffers) -> Result<Answer, Malformed> {
    let [log2_size, log2_line]: [usize; 2] = r.numbers()?;
    let shift = r.number()?;
    r.buffer(&mut b.words)?;
    r.buffer(&mut b.shorts)?;
    r.end()?;
    let src = b.words.as_slice();
    let dst = b.shorts.as_mut_slice();
    Ok(answer::done(itx::itxb1(src, dst, log2_size, log2_line, shift)))
}

// What a job takes. It is made by the function that promises which number goes where.
fn job_at(r: &mut Reader, b: &mut Buffers) -> Result<Job, Malformed> {
    let [start, log2_w, log2_h]: [usize; 3] = r.numbers()?;
    let qp = r.number()?;
    let offset = r.number()?;
    let [dq_shift, it_shift]: [u8; 2] = r.numbers()?;
    r.buffer(&mut b.shorts)?;
    r.end()?;
    Ok(evc::job_of(start, log2_w, log2_h, qp, offset, dq_shift, it_shift))
}

pub(crate) fn job(r: &mut Reader, b: &mut Buffers) -> Result<Answer, Malformed> {
    let job = job_at(r, b)?;
    Ok(answer::done(job::evc_itdq_job(b.shorts.as_mut_slice(), job)))
}

// The answer of a call that is reported.
fn reported(a: Result<(), Report>, log2_w: usize, dq_shift: u8) -> Answer {
    match a {
        Ok(()) => Ok(None),
        Err(report) => Err(Refused::Reported(Broken {
            report,
            log2_w,
            dq_shift,
        })),
    }
}

pub(crate) fn job_reported(r: &mut Reader, b: &mut Buffers) -> Result<Answer, Malformed> {
    let job = job_at(r, b)?;
    let a = sub_block::evc_itdq_job_reported(b.shorts.as_mut_slice(), job);
    Ok(reported(a, job.log2_w, job.dq_shift))
}

// What a sub-block takes, made by the function that makes C's.
fn sub_block_at(r: &mut Reader, b: &mut Buffers) -> Result<SubBlock, Malformed> {
    let [log2_w, log2_h]: [usize; 2] = r.numbers()?;
    let offset = r.number()?;
    let [dq_shift, it_shift]: [u8; 2] = r.numbers()?;
    let [flag_y, flag_u, flag_v]: [bool; 3] = r.numbers()?;
    let [start_y, start_u, start_v]: [usize; 3] = r.numbers()?;
    let [qp_y, qp_u, qp_v]: [u8; 3] = r.numbers()?;
    r.buffer(&mut b.shorts)?;
    r.end()?;
    Ok(boundary::sub_block(
        log2_w,
        log2_h,
        offset,
        dq_shift,
        it_shift,
        u8::from(flag_y),
        u8::from(flag_u),
        u8::from(flag_v),
        start_y,
        start_u,
        start_v,
        qp_y,
        qp_u,
        qp_v,
    ))
}

pub(crate) fn sub_block(r: &mut Reader, b: &mut Buffers) -> Result<Answer, Malformed> {
    let call = sub_block_at(r, b)?;
    let a = sub_block::evc_sub_block_itdq2(b.shorts.as_mut_slice(), call);
    Ok(answer::done(a))
}

pub(crate) fn sub_block_reported(r: &mut Reader, b: &mut Buffers) -> Result<Answer, Malformed> {
    let call = sub_block_at(r, b)?;
    let a = sub_block::evc_sub_block_itdq2_reported(b.shorts.as_mut_slice(), call);
    Ok(reported(a, call.log2_w, call.dq_shift))
}
