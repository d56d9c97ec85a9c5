// Reads what a call takes. A buffer is a length and as many numbers, where `N*V` stands for N numbers V; or a length and a value at once, `LENGTH*V`.
ghost use Rattle.std.specs.Prelude.{◌<◌, ◌≤◌, IfOk};

use crate::buffer::{Buffer, MOST};
use crate::call::Call;
use crate::fault::{Fault, Malformed, Wrong};
use crate::number::{Number, Range};
use std::str;

pub(crate) fn is_blank(b: u8) -> bool {
    matches!(b, b' ' | b'\t' | b'\r')
}

// A text from its first byte on that is no blank.
fn unblanked(text: &[u8]) -> &[u8] {
    let start = text.iter().position(|b| !is_blank(*b));
    &text[start.unwrap_or(text.len())..]
}

// A number as often as it stands in a buffer.
#[derive(Clone, Copy)]
struct Run<T: Copy> {
    times: usize,
    value: T,
}

// A line that names a call: what is left of it, and at which of the call's arguments reading is, counted from 1.
#[derive(Clone, Copy)]
pub(crate) struct Reader<'a> {
    line: &'a [u8],
    rest: &'a [u8],
    call: Call,
    place: usize,
}

// What is wrong with a text that starts with this byte and names no call: a byte-order mark starts with one that no text has.
fn unknown(first: u8) -> Fault {
    match first {
        0xef | 0xfe | 0xff => Fault::Mark,
        _ => Fault::Unknown,
    }
}

impl<'a> Reader<'a> {
    // Reads the name of the call. The line has more than blanks.
    pub(crate) fn new(line: &'a [u8]) -> Result<Reader<'a>, Malformed> {
        let text = unblanked(line);
        let end = text.iter().position(|b| is_blank(*b));
        let (word, rest) = text.split_at(end.unwrap_or(text.len()));
        match Call::named(word) {
            Some(call) => Ok(Reader {
                line,
                rest,
                call,
                place: 0,
            }),
            None => Err(Malformed {
                at: line.len().wrapping_sub(text.len()),
                fault: unknown(word.first().copied().unwrap_or(b' ')),
            }),
        }
    }

    pub(crate) fn call(&self) -> Call {
        self.call
    }

    fn malformed(&self, fault: Fault) -> Malformed {
        Malformed {
            at: self.line.len().wrapping_sub(self.rest.len()),
            fault,
        }
    }

    // Something is wrong with a number that stands here, or should.
    fn wrong(&self, wrong: Wrong, range: Range) -> Malformed {
        self.malformed(Fault::Number(self.call, self.place, wrong, range))
    }

    // The next word, up to a star: digits, and a sign before them if there is one.
    fn word(&mut self, range: Range) -> Result<&'a str, Malformed> {
        self.rest = unblanked(self.rest);
        let rest = self.rest;
        if rest.is_empty() {
            return Err(self.wrong(Wrong::Missing, range));
        }
        let end = rest.iter().position(|b| is_blank(*b) || *b == b'*');
        let word = &rest[..end.unwrap_or(rest.len())];
        let digits = word.strip_prefix(b"-").unwrap_or(word);
        match str::from_utf8(word) {
            Ok(text) if !digits.is_empty() && digits.iter().all(u8::is_ascii_digit) => Ok(text),
            _ => Err(self.wrong(Wrong::NotANumber, range)),
        }
    }

    // Whether a star stands behind a word.
    fn has_star(&self, word: &str) -> bool {
        self.rest.get(word.len()) == Some(&b'*')
    }

    // Goes on behind so many bytes.
    fn skip(&mut self, bytes: usize) {
        self.rest = self.rest.get(bytes..).unwrap_or(b"");
    }

    // The number that a word is.
    fn parsed<T: Number>(&mut self, word: &str) -> Result<T, Malformed> {
        match T::of(word) {
            Some(value) => {
                self.skip(word.len());
                Ok(value)
            }
            None => Err(self.wrong(Wrong::OutOfRange, T::range())),
        }
    }

    fn value<T: Number>(&mut self) -> Result<T, Malformed> {
        let word = self.word(T::range())?;
        self.parsed(word)
    }

    // The next argument, a number.
    pub(crate) fn number<T: Number>(&mut self) -> Result<T, Malformed> {
        self.place = self.place.wrapping_add(1);
        self.value()
    }

    // The next arguments, numbers of one kind.
    pub(crate) fn numbers<T: Number, const N: usize>(&mut self) -> Result<[T; N], Malformed> {
        let mut all = [T::default(); N];
        for n in &mut all {
            *n = self.number()?;
        }
        Ok(all)
    }

    // A buffer's length. Of `LENGTH*V` reading goes on at LENGTH, which is then its only item.
    fn length(&mut self) -> Result<usize, Malformed> {
        let word = self.word(Range::Length)?;
        let star = self.has_star(word);
        match usize::of(word) {
            Some(0) if star => Err(self.wrong(Wrong::OutOfRange, Range::Run)),
            Some(n) if n <= MOST => {
                if !star {
                    self.skip(word.len());
                }
                Ok(n)
            }
            _ => Err(self.wrong(Wrong::OutOfRange, Range::Length)),
        }
    }

    // An item of a buffer of which `left` numbers are left: V, or N*V.
    fn item<T: Number>(&mut self, left: usize) -> Result<Run<T>, Malformed>
        requires { 0 < left }
        ensures { IfOk result (λ r. (0 < r.times) × (r.times ≤ left)) }
    {
        let word = self.word(T::range())?;
        if !self.has_star(word) {
            let value = self.parsed(word)?;
            return Ok(Run { times: 1, value });
        }
        let digits = word.strip_prefix('-').unwrap_or(word);
        let Some(times) = usize::of(digits) else {
            return Err(self.wrong(Wrong::OutOfRange, T::range()));
        };
        if times == 0 || left < times || digits.len() < word.len() {
            return Err(self.wrong(Wrong::OutOfRange, Range::Run));
        }
        self.skip(word.len() + 1);
        let value = self.value()?;
        Ok(Run { times, value })
    }

    // The next argument, a buffer.
    pub(crate) fn buffer<T: Number>(&mut self, to: &mut Buffer<T>) -> Result<(), Malformed> {
        self.place = self.place.wrapping_add(1);
        let n = self.length()?;
        to.resize(n);
        let items = to.as_mut_slice();
        let mut at = 0;
        while at < items.len() {
            let run = self.item(items.len() - at)?;
            let end = at + run.times;
            for item in &mut items[at..end] {
                *item = run.value;
            }
            at = end;
        }
        Ok(())
    }

    // Nothing but blanks is left.
    pub(crate) fn end(&mut self) -> Result<(), Malformed> {
        self.rest = unblanked(self.rest);
        match self.rest {
            [] => Ok(()),
            _ => Err(self.malformed(Fault::Extra(self.call))),
        }
    }
}
