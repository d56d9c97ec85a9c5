// The block job and the sub-block call with a report. Document 02, One.
ghost use Rattle.std.specs.Prelude.{◌≡◌, length};
ghost use Rattle.evc.specs.Jobs.{job_of, report_of_job, job_exit};
ghost use Rattle.boundary.specs.Given.{part_of, sub_block_of};
ghost use Rattle.boundary.specs.Told.{report_told};
ghost use Rattle.capi.specs.Boundary.{SubReported};

use boundary::{TvReport, tell_report};

#[unsafe(no_mangle)]
pub extern "C" fn tv_job_reported(
    coef: &mut [i16],
    start: usize,
    log2_w: usize,
    log2_h: usize,
    qp: u8,
    offset: i32,
    dq_shift: u8,
    it_shift: u8,
) -> TvReport
    ensures report { result ≡ report_told (report_of_job (length coef.old) (job_of start log2_w log2_h qp offset dq_shift it_shift)) }
    ensures exit { coef.new ≡ job_exit (job_of start log2_w log2_h qp offset dq_shift it_shift) coef.old }
{
    let job = evc::job_of(start, log2_w, log2_h, qp, offset, dq_shift, it_shift);
    tell_report(sub_block::evc_itdq_job_reported(coef, job))
}

#[unsafe(no_mangle)]
pub extern "C" fn tv_sub_block_reported(
    coef: &mut [i16],
    log2_w: usize,
    log2_h: usize,
    offset: i32,
    dq_shift: u8,
    it_shift: u8,
    flag_y: u8,
    flag_u: u8,
    flag_v: u8,
    start_y: usize,
    start_u: usize,
    start_v: usize,
    qp_y: u8,
    qp_u: u8,
    qp_v: u8,
) -> TvReport
    ensures { SubReported
        (sub_block_of log2_w log2_h offset dq_shift it_shift (part_of flag_y start_y qp_y) (part_of flag_u start_u qp_u) (part_of flag_v start_v qp_v))
        coef.old coef.new result }
{
    let call = boundary::sub_block(
        log2_w, log2_h, offset, dq_shift, it_shift, flag_y, flag_u, flag_v, start_y, start_u,
        start_v, qp_y, qp_u, qp_v,
    );
    tell_report(sub_block::evc_sub_block_itdq2_reported(coef, call))
}
