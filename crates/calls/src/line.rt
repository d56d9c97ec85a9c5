// One line of the input.
use crate::answer::Answer;
use crate::buffer::Buffers;
use crate::call::Call;
use crate::fault::{Fault, Malformed};
use crate::out::Room;
use crate::read::{Reader, is_blank};
use crate::tally::Tally;
use crate::{answer, call, distortions, transforms};
use std::io;
use std::io::Write;

// From this length on a line is too long.
pub(crate) const TOO_LONG: usize = 524288;

// Reads what the call takes, and makes it. Help is none, and answers nothing.
fn called(r: &mut Reader, b: &mut Buffers) -> Result<Option<Answer>, Malformed> {
    let answer = match r.call() {
        Call::Scale => transforms::scale(r)?,
        Call::Dquant => transforms::dquant(r, b)?,
        Call::Itxb0 => transforms::itxb0(r, b)?,
        Call::Itxb1 => transforms::itxb1(r, b)?,
        Call::Job => transforms::job(r, b)?,
        Call::JobReported => transforms::job_reported(r, b)?,
        Call::SubBlock => transforms::sub_block(r, b)?,
        Call::SubBlockReported => transforms::sub_block_reported(r, b)?,
        Call::Diff => distortions::diff(r, b)?,
        Call::Satd => distortions::satd(r, b)?,
        Call::Ssd16b => distortions::ssd_16b(r, b)?,
        Call::Ssd16i => distortions::ssd_16i(r, b)?,
        Call::Sad16b => distortions::sad_16b(r, b)?,
        Call::SadBi16b => distortions::sad_bi_16b(r, b)?,
        Call::Sad16i => distortions::sad_16i(r, b)?,
        Call::SadBi16i => distortions::sad_bi_16i(r, b)?,
        Call::Help => {
            r.end()?;
            return Ok(None);
        }
    };
    Ok(Some(answer))
}

// What the buffer then holds that the call may write.
fn written(o: &mut Room, call: Call, b: &Buffers) -> io::Result<()> {
    match call {
        Call::Dquant
        | Call::Itxb1
        | Call::Job
        | Call::JobReported
        | Call::SubBlock
        | Call::SubBlockReported
        | Call::Diff => answer::contents(o, b.shorts.as_slice()),
        Call::Itxb0 => answer::contents(o, b.words.as_slice()),
        _ => Ok(()),
    }
}

// Where a line comes from.
#[derive(Clone, Copy)]
pub(crate) struct Place<'a> {
    pub(crate) name: &'a [u8],
    pub(crate) row: usize,
}

fn malformed(o: &mut Room, place: Place, m: Malformed, tally: &mut Tally) -> io::Result<()> {
    tally.error();
    m.tell(o, place.name, place.row)
}

// Makes the call that the line is, counts what came, and says it; or tells that it is none.
fn replayed(
    o: &mut Room,
    line: &[u8],
    place: Place,
    tally: &mut Tally,
    b: &mut Buffers,
) -> io::Result<()> {
    let mut r = match Reader::new(line) {
        Ok(r) => r,
        Err(m) => return malformed(o, place, m, tally),
    };
    match called(&mut r, b) {
        Ok(Some(answer)) => {
            tally.answer(&answer);
            answer::write(o, &answer)?;
            written(o, r.call(), b)?;
            o.write_all(b"\n")
        }
        Ok(None) => call::usage(o),
        Err(m) => malformed(o, place, m, tally),
    }
}

// Answers a line: a comment is repeated, an empty line is passed over, and whatever else is a call or is told to be none. One that is too long is
// left out.
pub(crate) fn answered(
    o: &mut Room,
    line: &[u8],
    place: Place,
    tally: &mut Tally,
    b: &mut Buffers,
) -> io::Result<()> {
    if TOO_LONG <= line.len() {
        let m = Malformed {
            at: TOO_LONG,
            fault: Fault::Long,
        };
        return malformed(o, place, m, tally);
    }
    match line.iter().copied().find(|b| !is_blank(*b)) {
        None => Ok(()),
        Some(b'#') => {
            o.write_all(line)?;
            o.write_all(b"\n")
        }
        Some(_) => replayed(o, line, place, tally, b),
    }
}
