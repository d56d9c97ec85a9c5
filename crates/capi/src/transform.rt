// The dequantizer, the two stages and the block job.
ghost use Rattle.std.specs.Prelude.{◌≡◌, length};
ghost use Rattle.evc.specs.Dequantizer.{dquant_number, dquant_exit};
ghost use Rattle.evc.specs.Stages.{stage_one_number, stage_two_number, itxb0_exit, itxb1_exit};
ghost use Rattle.evc.specs.Jobs.{job_of, job_number, job_exit};

use boundary::answer_number;

#[unsafe(no_mangle)]
pub extern "C" fn tv_dquant(
    coef: &mut [i16],
    log2_w: usize,
    log2_h: usize,
    scale: i32,
    offset: i32,
    shift: u8,
) -> u8
    ensures number { result ≡ dquant_number (length coef.old) log2_w log2_h shift }
    ensures exit { coef.new ≡ dquant_exit log2_w log2_h scale offset shift coef.old }
{
    answer_number(dquant::evc_dquant(coef, log2_w, log2_h, scale, offset, shift))
}

#[unsafe(no_mangle)]
pub extern "C" fn tv_itxb0(src: &[i16], dst: &mut [i32], log2_size: usize, log2_line: usize) -> u8
    ensures number { result ≡ stage_one_number (length src.now) (length dst.old) log2_size log2_line }
    ensures exit { dst.new ≡ itxb0_exit log2_size log2_line src.now dst.old }
{
    answer_number(itx::itxb0(src, dst, log2_size, log2_line))
}

#[unsafe(no_mangle)]
pub extern "C" fn tv_itxb1(
    src: &[i32],
    dst: &mut [i16],
    log2_size: usize,
    log2_line: usize,
    shift: u8,
) -> u8
    ensures number { result ≡ stage_two_number (length src.now) (length dst.old) log2_size log2_line shift }
    ensures exit { dst.new ≡ itxb1_exit log2_size log2_line shift src.now dst.old }
{
    answer_number(itx::itxb1(src, dst, log2_size, log2_line, shift))
}

#[unsafe(no_mangle)]
pub extern "C" fn tv_job(
    coef: &mut [i16],
    start: usize,
    log2_w: usize,
    log2_h: usize,
    qp: u8,
    offset: i32,
    dq_shift: u8,
    it_shift: u8,
) -> u8
    ensures number { result ≡ job_number (length coef.old) (job_of start log2_w log2_h qp offset dq_shift it_shift) }
    ensures exit { coef.new ≡ job_exit (job_of start log2_w log2_h qp offset dq_shift it_shift) coef.old }
{
    let job = evc::job_of(start, log2_w, log2_h, qp, offset, dq_shift, it_shift);
    answer_number(job::evc_itdq_job(coef, job))
}
