// `evc_sub_block_itdq2`, after the Rust's function of that name, and in `reported` the calls with a report. Document 01, "Refusal numbers" and "Numbers
// of the domain".
// Differs from the Rust in: each component brings its own start; all tests of all flagged components are made first, and a refused call has
// written nothing; a flagged component is a block job, not a call on the buffer's tail; offset and shifts are given, and shared.
#![tactic(auto)]

ghost use Rattle.std.specs.Prelude.{◌≡◌, length, IfSome, MatchOption};
ghost use Rattle.evc.specs.Answers.{accepted, sub_reading};
ghost use Rattle.evc.specs.Jobs.{job_number, job_exit};
ghost use Rattle.evc.specs.SubBlocks.{sub_reply, sub_exit};

use evc::{Job, SubBlock, SubRefusal};
use job_tests::{chroma_job, luma_job};

mod reported;

pub use reported::{evc_itdq_job_reported, evc_sub_block_itdq2_reported};

// A component's job, where it is flagged. Its tests have passed, so that they are not made again, as `evc_itdq_job` would.
pub(crate) fn component(coef: &mut [i16], job: Option<Job>)
    requires { IfSome job (λ j. job_number (length coef.old) j ≡ 0) }
    ensures { MatchOption job (coef.new ≡ coef.old) (λ j. coef.new ≡ job_exit j coef.old) }
{
    if let Some(job) = job {
        let start = job.start;
        let end = start + (1usize << (job.log2_w + job.log2_h));
        job_area::itdq(&mut coef[start..end], job);
    }
}

// The jobs of an accepted call's components, one after the other.
#[inline(always)]
pub(crate) fn components(coef: &mut [i16], call: SubBlock)
    requires { sub_reply (length coef.old) call ≡ accepted }
    ensures { coef.new ≡ sub_exit call coef.old }
{
    let y = call.y.map(|part| luma_job(call, part));
    let u = call.u.map(|part| chroma_job(call, part));
    let v = call.v.map(|part| chroma_job(call, part));
    component(&mut coef[..], y);
    component(&mut coef[..], u);
    component(&mut coef[..], v);
}

pub fn evc_sub_block_itdq2(coef: &mut [i16], call: SubBlock) -> Result<(), SubRefusal>
    ensures answer { sub_reading result ≡ sub_reply (length coef.old) call }
    ensures exit { coef.new ≡ sub_exit call coef.old }
{
    job_tests::of_sub_block(coef.len(), call)?;
    components(&mut coef[..], call);
    Ok(())
}
