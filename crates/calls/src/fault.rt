// What is said of a line that is no call, and of an input that can't be read. It goes where the answer would stand.
use crate::call::Call;
use crate::number::Range;
use crate::out::Room;
use std::io::Write;
use std::{fmt, io};

// What is wrong with a number.
#[derive(Clone, Copy)]
pub(crate) enum Wrong {
    Missing,
    NotANumber,
    OutOfRange,
}

// What is wrong with a line: it is too long, starts with a byte-order mark or names no call; or the call that it names takes no more, or takes another
// number as the argument at a place.
#[derive(Clone, Copy)]
pub(crate) enum Fault {
    Long,
    Mark,
    Unknown,
    Extra(Call),
    Number(Call, usize, Wrong, Range),
}

// A line that is no call, and how much of it is read.
#[derive(Clone, Copy)]
pub(crate) struct Malformed {
    pub(crate) at: usize,
    pub(crate) fault: Fault,
}

impl fmt::Display for Wrong {
    fn fmt<W: fmt::Write>(&self, f: &mut fmt::Formatter<W>) -> fmt::Result {
        f.write_str(match self {
            Wrong::Missing => "a number is missing",
            Wrong::NotANumber => "not a number",
            Wrong::OutOfRange => "out of range",
        })
    }
}

impl fmt::Display for Fault {
    fn fmt<W: fmt::Write>(&self, f: &mut fmt::Formatter<W>) -> fmt::Result {
        match *self {
            Fault::Long => {
                f.write_str(": a line has at most 524287 bytes; this one is left out")
            }
            Fault::Mark => {
                f.write_str(": the text starts with a byte-order mark; save it without one")
            }
            Fault::Unknown => f.write_str(": no such call; 'help' lists them"),
            Fault::Extra(call) => {
                f.write_str(": more than the call takes")?;
                form(f, call)
            }
            Fault::Number(call, place, wrong, range) => {
                let name = call.argument(place);
                write!(f, " ({name}): {wrong}, {range}")?;
                form(f, call)
            }
        }
    }
}

// How the call is written.
fn form<W: fmt::Write>(f: &mut fmt::Formatter<W>, call: Call) -> fmt::Result {
    match call.form() {
        Some(form) => write!(f, "; {form}"),
        None => Ok(()),
    }
}

impl Malformed {
    // The input's name, if it has one; the line and the column, counted from 1, and what is wrong there.
    pub(crate) fn tell(&self, o: &mut Room, name: &[u8], row: usize) -> io::Result<()> {
        let line = if name.is_empty() { "line" } else { ", line" };
        let column = self.at.wrapping_add(1);
        let fault = self.fault;
        o.write_all(b"error: ")?;
        o.write_all(name)?;
        writeln!(o, "{line} {row}, column {column}{fault}")
    }
}

// Errors of the system that have words of their own.
const ENOENT: i32 = 2;

const EACCES: i32 = 13;

const EISDIR: i32 = 21;

// Why an input can't be read: the errors of the system that have words of their own, the others, or none where it was not asked, since a name has to be text.
#[derive(Clone, Copy)]
pub(crate) enum Unread {
    NoSuchFile,
    NotAllowed,
    Folder,
    Other(i32),
    NotText,
}

impl Unread {
    pub(crate) fn of(error: Option<i32>) -> Unread {
        match error {
            Some(ENOENT) => Unread::NoSuchFile,
            Some(EACCES) => Unread::NotAllowed,
            Some(EISDIR) => Unread::Folder,
            Some(number) => Unread::Other(number),
            None => Unread::NotText,
        }
    }

    // Of an input that has no name, standard input is said.
    pub(crate) fn tell(&self, o: &mut Room, name: &[u8]) -> io::Result<()> {
        let why = *self;
        o.write_all(b"error: can't read ")?;
        if name.is_empty() {
            o.write_all(b"standard input")?;
        }
        o.write_all(name)?;
        writeln!(o, ": {why}")
    }
}

impl fmt::Display for Unread {
    fn fmt<W: fmt::Write>(&self, f: &mut fmt::Formatter<W>) -> fmt::Result {
        match *self {
            Unread::NoSuchFile => f.write_str("there is no such file"),
            Unread::NotAllowed => f.write_str("it may not be read"),
            Unread::Folder => f.write_str("it is a folder"),
            Unread::Other(number) => write!(f, "the system's error number is {number}"),
            Unread::NotText => f.write_str("its name is not UTF-8"),
        }
    }
}

// An argument that names no file.
pub(crate) fn no_name(o: &mut Room) -> io::Result<()> {
    writeln!(
        o,
        "error: can't read an argument: it is empty, or longer than 4095 bytes"
    )
}
