// `evc_itdq_job_reported` and `evc_sub_block_itdq2_reported`: the job and the sub-block call, each with a report of what is refused. Document 02, One.
// Differs from the Rust in: it has no such calls.
ghost use Rattle.std.specs.Prelude.{◌≡◌, length};
ghost use Rattle.evc.specs.Answers.{report_number, report_reply};
ghost use Rattle.evc.specs.Jobs.{job_number, report_of_job, job_exit};
ghost use Rattle.evc.specs.SubBlocks.{sub_reply, report_of_sub, sub_exit};

use crate::{component, components};
use evc::{Job, Report, SubBlock};

// Neither calls its twin without a report: with a second caller that would no longer stand inside its export, where it takes fewer instructions. They
// share what does the work.
pub fn evc_itdq_job_reported(coef: &mut [i16], job: Job) -> Result<(), Report>
    ensures answer { report_number result ≡ job_number (length coef.old) job }
    ensures report { result ≡ report_of_job (length coef.old) job }
    ensures exit { coef.new ≡ job_exit job coef.old }
{
    job_tests::job_report(coef.len(), job)?;
    component(&mut coef[..], Some(job));
    Ok(())
}

pub fn evc_sub_block_itdq2_reported(coef: &mut [i16], call: SubBlock) -> Result<(), Report>
    ensures answer { report_reply result ≡ sub_reply (length coef.old) call }
    ensures report { result ≡ report_of_sub (length coef.old) call }
    ensures exit { coef.new ≡ sub_exit call coef.old }
{
    job_tests::sub_block_report(coef.len(), call)?;
    components(&mut coef[..], call);
    Ok(())
}
