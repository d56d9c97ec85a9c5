// Replays calls of the codec's entry points, one to a line, and writes their answers: for trying a call by hand, and for holding recorded answers
// against the code. `help` says what a line is. From the bottom: `call` knows the calls and how each is written, `fault` what can be wrong with a line,
// `number` and `buffer` what stands in one, `read` reads it, `answer` and `report` say what came, `transforms` and `distortions` call, `out` writes,
// `tally` counts, `line` answers one line and `input` all of them.
// Nothing here promises more than to be safe and to end: the meaning of the answers is promised by the crates that are called, and that the text is
// read and written right is shown by the recorded runs.
#![tactic(auto)]

mod answer;
mod buffer;
mod call;
mod distortions;
mod fault;
mod input;
mod line;
mod number;
mod out;
mod read;
mod report;
mod tally;
mod transforms;

use fault::Unread;
use out::Room;
use read::is_blank;
use std::env::{Env, FillError};
use std::fs::File;
use std::io::{Read, Write};
use std::process::ExitCode;
use std::rt::Files;
use std::{io, str};
use tally::Tally;

// Replays a file, or says why it can't be read.
fn file(rt: &impl Files, o: &mut Room, name: &[u8], tally: &mut Tally) -> io::Result<()> {
    let Ok(path) = str::from_utf8(name) else {
        tally.error();
        return Unread::NotText.tell(o, name);
    };
    match File::open(rt, path) {
        Ok(mut input) => input::replay(o, &mut input, name, tally),
        Err(e) => {
            tally.error();
            Unread::of(e.raw_os_error()).tell(o, name)
        }
    }
}

// What an argument asks for: how the program is used, or the replay of the file that it names.
fn argument(rt: &impl Files, o: &mut Room, name: &[u8], tally: &mut Tally) -> io::Result<()> {
    if name.split(|b| is_blank(*b)).next() == Some(b"--help") {
        return call::usage(o);
    }
    if name.is_empty() {
        tally.error();
        return fault::no_name(o);
    }
    file(rt, o, name, tally)
}

// Replays the files that the arguments name, or standard input where there are none, and sums up.
fn run(rt: &(impl Env + Files), o: &mut Room, input: &mut impl Read) -> io::Result<()> {
    let mut tally = Tally::default();
    let mut path = [0u8; 4095];
    if let Err(FillError::NotPresent) = rt.arg(1, &mut []) {
        input::replay(o, input, b"", &mut tally)?;
    }
    for i in 1..usize::MAX {
        match rt.arg(i, &mut path) {
            Ok(n) => argument(rt, o, &path[..n], &mut tally)?,
            Err(FillError::NotPresent) => break,
            Err(_) => argument(rt, o, b"", &mut tally)?,
        }
    }
    if !tally.is_empty() {
        writeln!(o, "{tally}")?;
    }
    o.flush()
}

// It fails where not all could be written, and tells that once. Where standard error can't be written either, there is nobody left to tell.
fn main(rt: HostRuntime) -> ExitCode {
    let mut room = Room::new(rt.stdout());
    match run(&rt, &mut room, &mut rt.stdin()) {
        Ok(()) => ExitCode::SUCCESS,
        Err(e) => {
            let _ = eprintln!(rt; "calls: can't write standard output: {e}");
            ExitCode::FAILURE
        }
    }
}
