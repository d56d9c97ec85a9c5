// The job of each component. Document 01, "Numbers of the domain".
// Differs from the Rust in: chroma's log of a luma log 0 is 0 and does not underflow; a job of that log is refused.
ghost use Rattle.std.specs.Prelude.{◌≡◌};
ghost use Rattle.evc.specs.SubBlocks.{luma, chroma};

use evc::{Job, Part, SubBlock, job_of};

pub fn luma_job(call: SubBlock, part: Part) -> Job
    ensures { result ≡ luma call part }
{
    job_of(
        part.start,
        call.log2_w,
        call.log2_h,
        part.qp,
        call.offset,
        call.dq_shift,
        call.it_shift,
    )
}

pub fn chroma_job(call: SubBlock, part: Part) -> Job
    ensures { result ≡ chroma call part }
{
    job_of(
        part.start,
        call.log2_w.saturating_sub(1),
        call.log2_h.saturating_sub(1),
        part.qp,
        call.offset,
        call.dq_shift,
        call.it_shift,
    )
}
