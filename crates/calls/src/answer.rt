// What a call answers, and how it is written: document 01's number and name, the value or the reason, and the contents of a buffer.
use crate::out::Room;
use crate::report::Broken;
use evc::{Component, Refusal, SubRefusal};
use std::io::Write;
use std::{fmt, io};

// Why a call is refused: a call on a sub-block names the component, and one that is reported says more.
#[derive(Clone, Copy)]
pub(crate) enum Refused {
    Call(Refusal),
    SubBlock(SubRefusal),
    Reported(Broken),
}

// The value of a call that has one, or why it is refused.
pub(crate) type Answer = Result<Option<i64>, Refused>;

impl From<Refusal> for Refused {
    fn from(r: Refusal) -> Refused {
        Refused::Call(r)
    }
}

impl From<SubRefusal> for Refused {
    fn from(r: SubRefusal) -> Refused {
        Refused::SubBlock(r)
    }
}

impl Refused {
    pub(crate) fn refusal(&self) -> Refusal {
        match self {
            Refused::Call(r) => *r,
            Refused::SubBlock(r) => r.refusal,
            Refused::Reported(r) => r.report.refusal,
        }
    }
}

// A call that leaves its result in a buffer.
pub(crate) fn done<E: Into<Refused>>(a: Result<(), E>) -> Answer {
    match a {
        Ok(()) => Ok(None),
        Err(e) => Err(e.into()),
    }
}

pub(crate) fn value<T: Into<i64>>(a: Result<T, Refusal>) -> Answer {
    match a {
        Ok(v) => Ok(Some(v.into())),
        Err(r) => Err(Refused::Call(r)),
    }
}

fn name(r: Refusal) -> &'static str {
    match r {
        Refusal::Size => "SIZE",
        Refusal::Qp => "QP",
        Refusal::Shift => "SHIFT",
        Refusal::Depth => "DEPTH",
        Refusal::Area => "AREA",
        Refusal::Overlap => "OVERLAP",
        Refusal::Sample => "SAMPLE",
    }
}

pub(crate) fn letter(c: Component) -> &'static str {
    match c {
        Component::Y => "Y",
        Component::U => "U",
        Component::V => "V",
    }
}

impl fmt::Display for Refused {
    fn fmt<W: fmt::Write>(&self, f: &mut fmt::Formatter<W>) -> fmt::Result {
        let refusal = self.refusal();
        let number = u8::from(refusal);
        let name = name(refusal);
        write!(f, "{number} {name}")?;
        match self {
            Refused::Call(_) => Ok(()),
            Refused::SubBlock(r) => {
                let who = letter(r.component);
                write!(f, " {who}")
            }
            Refused::Reported(r) => write!(f, "{r}"),
        }
    }
}

pub(crate) fn write(o: &mut Room, a: &Answer) -> io::Result<()> {
    match a {
        Ok(None) => o.write_all(b"0 done"),
        Ok(Some(v)) => write!(o, "0 value {v}"),
        Err(r) => write!(o, "{r}"),
    }
}

// The final contents of a buffer that a call may write.
pub(crate) fn contents<T: Copy + Into<i64>>(o: &mut Room, items: &[T]) -> io::Result<()> {
    o.write_all(b" |")?;
    for item in items {
        let v: i64 = (*item).into();
        write!(o, " {v}")?;
    }
    Ok(())
}
