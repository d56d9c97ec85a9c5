// What is counted: lines, calls that are accepted, those that are refused, by their numbers from 1 to 7, and errors.
use crate::answer::Answer;
use std::fmt;

#[derive(Clone, Copy, Default)]
pub(crate) struct Tally {
    lines: usize,
    accepted: usize,
    refused: [usize; 8],
    errors: usize,
}

impl Tally {
    pub(crate) fn line(&mut self) {
        self.lines = self.lines.wrapping_add(1);
    }

    pub(crate) fn error(&mut self) {
        self.errors = self.errors.wrapping_add(1);
    }

    pub(crate) fn answer(&mut self, a: &Answer) {
        match a {
            Ok(_) => self.accepted = self.accepted.wrapping_add(1),
            Err(r) => {
                let number = usize::from(u8::from(r.refusal()));
                if let Some(n) = self.refused.get_mut(number) {
                    *n = n.wrapping_add(1);
                }
            }
        }
    }

    // Whether there was nothing to answer.
    pub(crate) fn is_empty(&self) -> bool {
        self.lines == 0 && self.errors == 0
    }
}

impl fmt::Display for Tally {
    fn fmt<W: fmt::Write>(&self, f: &mut fmt::Formatter<W>) -> fmt::Result {
        let lines = self.lines;
        let accepted = self.accepted;
        let [_, size, qp, shift, depth, area, overlap, sample] = self.refused;
        let errors = self.errors;
        write!(
            f,
            "total: {lines} lines; {accepted} accepted; refused {size} SIZE, {qp} QP, {shift} SHIFT, {depth} DEPTH, "
        )?;
        write!(
            f,
            "{area} AREA, {overlap} OVERLAP, {sample} SAMPLE; {errors} errors"
        )
    }
}
