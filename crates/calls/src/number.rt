// The numbers that a line may have.
use std::fmt;

// What a number may be.
#[derive(Clone, Copy)]
pub(crate) enum Range {
    Size,
    Byte,
    Flag,
    Word,
    Short,
    Sample,
    Length,
    Run,
}

impl fmt::Display for Range {
    fn fmt<W: fmt::Write>(&self, f: &mut fmt::Formatter<W>) -> fmt::Result {
        f.write_str(match self {
            Range::Size => "0..18446744073709551615",
            Range::Byte => "0..255",
            Range::Flag => "0..1",
            Range::Word => "-2147483648..2147483647",
            Range::Short => "-32768..32767",
            Range::Sample => "0..65535",
            Range::Length => "a length of 0..16384",
            Range::Run => "1 to what is left of the buffer",
        })
    }
}

// A number of a line: of the digits, and the sign before them if there is one, that stand there. None where it is out of range.
pub(crate) trait Number: Copy + Default {
    fn range() -> Range;

    fn of(word: &str) -> Option<Self>;
}

impl Number for usize {
    fn range() -> Range {
        Range::Size
    }

    fn of(word: &str) -> Option<usize> {
        word.parse().ok()
    }
}

impl Number for u8 {
    fn range() -> Range {
        Range::Byte
    }

    fn of(word: &str) -> Option<u8> {
        word.parse().ok()
    }
}

impl Number for u16 {
    fn range() -> Range {
        Range::Sample
    }

    fn of(word: &str) -> Option<u16> {
        word.parse().ok()
    }
}

impl Number for i16 {
    fn range() -> Range {
        Range::Short
    }

    fn of(word: &str) -> Option<i16> {
        word.parse().ok()
    }
}

impl Number for i32 {
    fn range() -> Range {
        Range::Word
    }

    fn of(word: &str) -> Option<i32> {
        word.parse().ok()
    }
}

impl Number for bool {
    fn range() -> Range {
        Range::Flag
    }

    fn of(word: &str) -> Option<bool> {
        match word.parse() {
            Ok(0u8) => Some(false),
            Ok(1) => Some(true),
            _ => None,
        }
    }
}
