// The tests of a job, which look at no buffer, only at its length: which is the first that is broken, by which number, and the limit that this breaks.
// Document 01, "Refusal numbers, in the order they are tested"; document 02, One.
// Differs from the Rust in: it has no such tests. What a bad call does there, docs/DIFFERENCES.md says.
ghost use Rattle.std.specs.Prelude.{◌≡◌, ◌≤◌, [], ◌∷◌, IfOk};
ghost use Rattle.evc.specs.declared.Refusal.TheVariants.{Size};
ghost use Rattle.evc.specs.Answers.{answer_number};
ghost use Rattle.evc.specs.Tests.{samples_of};
ghost use Rattle.evc.specs.Reports.{within, at_most, named, report};
ghost use Rattle.evc.specs.Jobs.{inside, entries_as, job_number, report_of_job};
ghost use Rattle.job_tests.specs.Told.{told};

use evc::{Component, Job, Refusal, Report};

// What is asked of a job: its logs as they were handed in, and the least and the largest that they may be. Within these its own logs are at most 6.
#[derive(Clone, Copy)]
pub(crate) struct Asked {
    pub(crate) lo: usize,
    pub(crate) hi: usize,
    pub(crate) log2_w: usize,
    pub(crate) log2_h: usize,
    pub(crate) job: Job,
    ghost w6: { log2_w ≤ hi → job.log2_w ≤ 6 },
    ghost h6: { log2_h ≤ hi → job.log2_h ≤ 6 },
}

// A job whose logs have passed their tests.
#[derive(Clone, Copy)]
pub(crate) struct Sized {
    pub(crate) job: Job,
    ghost w6: { job.log2_w ≤ 6 },
    ghost h6: { job.log2_h ≤ 6 },
}

impl Sized {
    // How many samples it has.
    pub(crate) fn samples(self) -> usize
        ensures { result ≡ samples_of self.job.log2_w self.job.log2_h }
    {
        1usize << (self.job.log2_w + self.job.log2_h)
    }
}

// A log must lie in lo..=hi: the limit that it breaks is the end that it is past.
#[inline(always)]
fn within(who: Component, lo: usize, hi: usize, log: usize) -> Result<(), Report>
    ensures { result ≡ report (named who (within Size lo hi log ∷ [])) }
{
    if (log < lo) | (hi < log) {
        return Err(Report {
            component: who,
            refusal: Refusal::Size,
            given: log,
            limit: if log < lo { lo } else { hi },
        });
    }
    Ok(())
}

// A number must be at most `hi`.
#[inline(always)]
fn at_most(who: Component, refusal: Refusal, hi: usize, x: usize) -> Result<(), Report>
    ensures { result ≡ report (named who (at_most refusal hi x ∷ [])) }
{
    if hi < x {
        return Err(Report {
            component: who,
            refusal,
            given: x,
            limit: hi,
        });
    }
    Ok(())
}

// The area must end inside a buffer of `len` samples. No sum is formed that may wrap, so that a start near the largest usize is no exception.
#[inline(always)]
fn inside(who: Component, len: usize, sized: Sized) -> Result<(), Report>
    ensures { result ≡ report (named who (inside len sized.job ∷ [])) }
{
    let n = sized.samples();
    let start = sized.job.start;
    if len < n || len - n < start {
        return Err(Report {
            component: who,
            refusal: Refusal::Area,
            given: start,
            limit: len,
        });
    }
    Ok(())
}

// The tests on a buffer of `len` samples.
#[inline(always)]
pub(crate) fn tests(who: Component, len: usize, asked: Asked) -> Result<Sized, Report>
    ensures report { told result ≡ report (named who (entries_as asked.lo asked.hi asked.log2_w asked.log2_h len asked.job)) }
    ensures job { IfOk result (λ s. s.job ≡ asked.job) }
{
    within(who, asked.lo, asked.hi, asked.log2_w)?;
    within(who, asked.lo, asked.hi, asked.log2_h)?;
    at_most(who, Refusal::Qp, 63, asked.job.qp as usize)?;
    at_most(who, Refusal::Shift, 31, asked.job.dq_shift as usize)?;
    at_most(who, Refusal::Shift, 31, asked.job.it_shift as usize)?;
    let sized = Sized { job: asked.job };
    inside(who, len, sized)?;
    Ok(sized)
}

// The report of a job on a buffer of `len` samples. Its component is Y.
pub fn job_report(len: usize, job: Job) -> Result<(), Report>
    ensures { result ≡ report_of_job len job }
{
    let asked = Asked {
        lo: 1,
        hi: 6,
        log2_w: job.log2_w,
        log2_h: job.log2_h,
        job,
    };
    tests(Component::Y, len, asked)?;
    Ok(())
}

// The refusal alone.
pub fn of_job(len: usize, job: Job) -> Result<(), Refusal>
    ensures { answer_number result ≡ job_number len job }
{
    job_report(len, job).map_err(|report| report.refusal)
}
