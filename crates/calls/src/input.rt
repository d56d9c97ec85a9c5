// The input, a part at a time, through a buffer that holds the longest line.
ghost use Rattle.std.specs.Prelude.{◌≤◌};

use crate::buffer::Buffers;
use crate::fault::Unread;
use crate::line::{Place, TOO_LONG};
use crate::out::Room;
use crate::tally::Tally;
use crate::{call, line};
use std::io;
use std::io::{Read, Write};

// Room for a line that is just too long. What comes behind that is left out.
#[derive(Drop)]
struct Line {
    bytes: [u8; TOO_LONG],
    len: usize,
    ghost inside: { len ≤ 524288 },
}

impl Line {
    fn new() -> Line {
        Line {
            bytes: [0; TOO_LONG],
            len: 0,
        }
    }

    fn push(&mut self, text: &[u8]) {
        let n = text.len().min(TOO_LONG - self.len);
        let end = self.len + n;
        self.bytes[self.len..end].copy_from_slice(&text[..n]);
        self.len = end;
    }

    fn as_slice(&self) -> &[u8] {
        &self.bytes[..self.len]
    }

    fn clear(&mut self) {
        self.len = 0;
    }
}

// An input: what it is called, the line that is being read and its number, and the buffers of its calls.
#[derive(Drop)]
struct Input<'a> {
    name: &'a [u8],
    row: usize,
    line: Line,
    buffers: Buffers,
}

impl<'a> Input<'a> {
    // Answers the line that is read.
    fn answer(&mut self, o: &mut Room, tally: &mut Tally) -> io::Result<()> {
        let place = Place {
            name: self.name,
            row: self.row,
        };
        tally.line();
        line::answered(o, self.line.as_slice(), place, tally, &mut self.buffers)?;
        self.line.clear();
        self.row = self.row.wrapping_add(1);
        Ok(())
    }

    // Takes what was read, and answers each line that has its end there.
    fn take(&mut self, o: &mut Room, part: &[u8], tally: &mut Tally) -> io::Result<()> {
        for piece in part.split_inclusive(|b| *b == b'\n') {
            match piece.strip_suffix(b"\n") {
                Some(text) => {
                    self.line.push(text);
                    self.answer(o, tally)?;
                }
                None => self.line.push(piece),
            }
        }
        Ok(())
    }

    // Whether nothing came yet.
    fn is_new(&self) -> bool {
        self.row == 1 && self.line.as_slice().is_empty()
    }
}

// Answers the lines of an input, and where it is empty says how the program is used. A proved loop has to end, and nothing says that an input
// does: the loop counts its turns up to a number that no run reaches.
pub(crate) fn replay(
    o: &mut Room,
    input: &mut impl Read,
    name: &[u8],
    tally: &mut Tally,
) -> io::Result<()> {
    let mut part = [0u8; 65536];
    let mut read = Input {
        name,
        row: 1,
        line: Line::new(),
        buffers: Buffers::new(),
    };
    for _ in 0..u64::MAX {
        // What was said is written before each read.
        o.flush()?;
        match input.read(&mut part) {
            Ok(0) if read.is_new() => call::usage(o)?,
            Ok(0) => {}
            Ok(n) => {
                read.take(o, &part[..n], tally)?;
                continue;
            }
            Err(e) => {
                tally.error();
                Unread::of(e.raw_os_error()).tell(o, name)?;
            }
        }
        // A last line may have no end.
        if !read.line.as_slice().is_empty() {
            return read.answer(o, tally);
        }
        return Ok(());
    }
    Ok(())
}
