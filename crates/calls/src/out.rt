// Standard output, through a buffer.
ghost use Rattle.std.specs.Prelude.{◌≤◌};

use std::io;
use std::io::{Stdout, Write};

const SIZE: usize = 65536;

// The first `taken` bytes wait to be written.
#[derive(Drop)]
pub(crate) struct Room {
    bytes: [u8; SIZE],
    taken: usize,
    output: Stdout,
    ghost inside: { taken ≤ 65536 },
}

impl Room {
    pub(crate) fn new(output: Stdout) -> Room {
        Room {
            bytes: [0; SIZE],
            taken: 0,
            output,
        }
    }
}

impl Write for Room {
    fn write(&mut self, buf: &[u8]) -> io::Result<usize> {
        if self.taken == SIZE {
            self.flush()?;
        }
        let n = buf.len().min(SIZE - self.taken);
        let end = self.taken + n;
        self.bytes[self.taken..end].copy_from_slice(&buf[..n]);
        self.taken = end;
        Ok(n)
    }

    // The library's own would try again, without an end, where the output has tried and given up: its last error may be that it was interrupted.
    fn write_all(&mut self, buf: &[u8]) -> io::Result<()> {
        let mut rest = buf;
        // Each turn takes a byte at least.
        for _ in 0..buf.len() {
            if rest.is_empty() {
                break;
            }
            let n = self.write(rest)?;
            rest = &rest[n..];
        }
        Ok(())
    }

    fn flush(&mut self) -> io::Result<()> {
        self.output.write_all(&self.bytes[..self.taken])?;
        self.taken = 0;
        Ok(())
    }
}
