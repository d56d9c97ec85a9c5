// `evc_itdq_job`, the block job, after the Rust's `evc_itdq`. Document 01, "Numbers of the domain" and "The two stages".
// Differs from the Rust in: the job's own area is lent on, where the Rust's driver lends the buffer's tail; offset and shifts are given; all
// tests are made first, and a refused job has written nothing.
#![tactic(auto)]

ghost use Rattle.std.specs.Prelude.{◌≡◌, length};
ghost use Rattle.evc.specs.Answers.{answer_number};
ghost use Rattle.evc.specs.Jobs.{job_number, job_exit};

use evc::{Job, Refusal};

pub fn evc_itdq_job(coef: &mut [i16], job: Job) -> Result<(), Refusal>
    ensures answer { answer_number result ≡ job_number (length coef.old) job }
    ensures exit { coef.new ≡ job_exit job coef.old }
{
    job_tests::of_job(coef.len(), job)?;
    let start = job.start;
    let end = start + (1usize << (job.log2_w + job.log2_h));
    job_area::itdq(&mut coef[start..end], job);
    Ok(())
}
