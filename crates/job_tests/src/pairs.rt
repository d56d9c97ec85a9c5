// OVERLAP: two flagged components that share a sample. Document 01, "Refusal numbers, in the order they are tested".
// Differs from the Rust in: its offsets are fixed and never overlap, so that it has no such test.
ghost use Rattle.std.specs.Prelude.{◌≡◌, option_map};
ghost use Rattle.order.specs.Positions.{shared};
ghost use Rattle.evc.specs.Reports.{named, report};
ghost use Rattle.evc.specs.Jobs.{area};
ghost use Rattle.evc.specs.SubBlocks.{is_some};
ghost use Rattle.job_tests.specs.Pairs.{pair, job_in};

use crate::jobs::Sized;
use evc::{Component, Refusal, Report};

// Two jobs share a sample: the one that starts first reaches the start of the other. No sum is formed, so that none wraps.
#[inline(always)]
fn meet(j: Sized, k: Sized) -> bool
    ensures { result ≡ is_some (shared (area j.job) (area k.job)) }
{
    let a = j.job.start;
    let b = k.job.start;
    if a < b {
        b - a < j.samples()
    } else {
        a - b < k.samples()
    }
}

// Two components, both flagged, must share no sample. The later of them, `who`, is named, with its start and the lowest position that they share, which
// is the later start.
#[inline(always)]
pub(crate) fn apart(who: Component, j: Option<Sized>, k: Option<Sized>) -> Result<(), Report>
    ensures { result ≡ report (named who (pair (option_map job_in j) (option_map job_in k))) }
{
    let (Some(j), Some(k)) = (j, k) else {
        return Ok(());
    };
    if meet(j, k) {
        return Err(Report {
            component: who,
            refusal: Refusal::Overlap,
            given: k.job.start,
            limit: j.job.start.max(k.job.start),
        });
    }
    Ok(())
}
