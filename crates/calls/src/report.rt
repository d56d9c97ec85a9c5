// Why a call was refused, as a sentence: whose number broke which limit. Document 02, One.
use crate::answer::letter;
use evc::{Refusal, Report};
use std::fmt;

// A report of a call with this width's log and this dequantization shift.
#[derive(Clone, Copy)]
pub(crate) struct Broken {
    pub(crate) report: Report,
    pub(crate) log2_w: usize,
    pub(crate) dq_shift: u8,
}

impl Broken {
    // What was given. It is the height's log that broke the limit only where the width's keeps it, so that the two differ and the number itself says which it
    // is. So it is with the shifts. No report has another refusal.
    fn what(&self) -> Option<&'static str> {
        let given = self.report.given;
        match self.report.refusal {
            Refusal::Size if given == self.log2_w => Some("width log"),
            Refusal::Size => Some("height log"),
            Refusal::Qp => Some("qp"),
            Refusal::Shift if given == usize::from(self.dq_shift) => Some("dequantization shift"),
            Refusal::Shift => Some("stage shift"),
            Refusal::Area | Refusal::Overlap => Some("its area from"),
            Refusal::Depth | Refusal::Sample => None,
        }
    }

    fn how(&self) -> &'static str {
        match self.report.refusal {
            Refusal::Area => "ends past the buffer's end at",
            Refusal::Overlap => "overlaps an earlier one at",
            _ if self.report.given < self.report.limit => "is below",
            _ => "is above",
        }
    }
}

impl fmt::Display for Broken {
    fn fmt<W: fmt::Write>(&self, f: &mut fmt::Formatter<W>) -> fmt::Result {
        let Some(what) = self.what() else {
            return Ok(());
        };
        let who = letter(self.report.component);
        let given = self.report.given;
        let how = self.how();
        let limit = self.report.limit;
        write!(f, "; {who} refused: {what} {given} {how} {limit}")
    }
}
