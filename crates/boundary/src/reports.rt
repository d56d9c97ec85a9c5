// A report as C has it: numbers alone, the answer among them.
ghost use Rattle.std.specs.Prelude.{◌≡◌};
ghost use Rattle.boundary.specs.Told.{report_told};

use evc::Report;

// All 0 where the call is accepted.
#[repr(C)]
#[derive(Clone, Copy)]
pub struct TvReport {
    pub given: u64,
    pub limit: u64,
    pub answer: u8,
    pub component: u8,
}

pub fn tell_report(r: Result<(), Report>) -> TvReport
    ensures { result ≡ report_told r }
{
    match r {
        Ok(()) => TvReport {
            given: 0,
            limit: 0,
            answer: 0,
            component: 0,
        },
        Err(e) => TvReport {
            given: e.given as u64,
            limit: e.limit as u64,
            answer: u8::from(e.refusal),
            component: u8::from(e.component),
        },
    }
}
