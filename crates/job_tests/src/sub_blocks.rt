// The tests of a sub-block call: each flagged component by itself, then the pairs.
// Differs from the Rust in: it has no such tests. What a bad call does there, docs/DIFFERENCES.md says.
ghost use Rattle.std.specs.Prelude.{◌≡◌, option_map, IfOk};
ghost use Rattle.evc.specs.declared.Component.TheVariants.{Y};
ghost use Rattle.evc.specs.Answers.{sub_reading};
ghost use Rattle.evc.specs.Reports.{named, report};
ghost use Rattle.evc.specs.SubBlocks.{luma, chroma, luma_entries, chroma_entries, given, sub_reply, report_of_sub};
ghost use Rattle.job_tests.specs.Told.{told};
ghost use Rattle.job_tests.specs.Pairs.{job_in};

use crate::components::{chroma_job, luma_job};
use crate::jobs::{Asked, Sized, tests};
use crate::pairs::apart;
use evc::{Component, Part, Report, SubBlock, SubRefusal};

// Luma's own tests, where it is flagged, on a buffer of `len` samples.
#[inline(always)]
fn luma_tests(len: usize, call: SubBlock) -> Result<Option<Sized>, Report>
    ensures report { told result ≡ report (named Y (given call.y (luma_entries len call))) }
    ensures job { IfOk result (λ o. option_map job_in o ≡ option_map (luma call) call.y) }
{
    let Some(part) = call.y else {
        return Ok(None);
    };
    let asked = Asked {
        lo: 1,
        hi: 6,
        log2_w: call.log2_w,
        log2_h: call.log2_h,
        job: luma_job(call, part),
    };
    Ok(Some(tests(Component::Y, len, asked)?))
}

// Those of a chroma component. A log handed in within 2..=7 is one of its job within 1..=6.
#[inline(always)]
fn chroma_tests(
    who: Component,
    len: usize,
    call: SubBlock,
    part: Option<Part>,
) -> Result<Option<Sized>, Report>
    ensures report { told result ≡ report (named who (given part (chroma_entries len call))) }
    ensures job { IfOk result (λ o. option_map job_in o ≡ option_map (chroma call) part) }
{
    let Some(part) = part else {
        return Ok(None);
    };
    let asked = Asked {
        lo: 2,
        hi: 7,
        log2_w: call.log2_w,
        log2_h: call.log2_h,
        job: chroma_job(call, part),
    };
    Ok(Some(tests(who, len, asked)?))
}

// The report of a sub-block on a buffer of `len` samples. It is inlined, as are the tests below it: called, it would read the call from memory.
#[inline(always)]
pub fn sub_block_report(len: usize, call: SubBlock) -> Result<(), Report>
    ensures { result ≡ report_of_sub len call }
{
    let y = luma_tests(len, call)?;
    let u = chroma_tests(Component::U, len, call, call.u)?;
    let v = chroma_tests(Component::V, len, call, call.v)?;
    apart(Component::U, y, u)?;
    apart(Component::V, y, v)?;
    apart(Component::V, u, v)
}

// The component and the refusal alone.
pub fn of_sub_block(len: usize, call: SubBlock) -> Result<(), SubRefusal>
    ensures { sub_reading result ≡ sub_reply len call }
{
    sub_block_report(len, call).map_err(|report| SubRefusal {
        component: report.component,
        refusal: report.refusal,
    })
}
