// What an accepted job does with its own area, which it is lent: the dequantizer and both stages. The job and the components of a sub-block call it and
// cite the laws in proofs/. Document 01, "The two stages".
#![tactic(auto)]

ghost use Rattle.std.specs.Prelude.{◌≡◌, pos};
ghost use Rattle.evc.specs.Answers.{value_or};
ghost use Rattle.evc.specs.Dequantizer.{scale_reply, dquant_exit};
ghost use Rattle.itx.specs.Both.{both_exit};

use evc::Job;

// It is inlined in each of its callers: called, it would read the job from memory, and a small job would pay for that.
#[inline(always)]
pub fn itdq(part: &mut [i16], job: Job)
    ensures { part.new ≡ both_exit job.log2_w job.log2_h job.it_shift
        (dquant_exit job.log2_w job.log2_h (value_or (scale_reply job.qp) (pos 0)) job.offset job.dq_shift part.old) }
{
    let by = scaling::scale_of(job.qp);
    // An accepted job's numbers pass these tests too.
    let _ = dquant::evc_dquant(part, job.log2_w, job.log2_h, by, job.offset, job.dq_shift);
    itx::both_stages(part, job.log2_w, job.log2_h, job.it_shift);
}
