// The calls: how each is written.
use crate::out::Room;
use std::io;
use std::io::Write;

#[derive(Clone, Copy)]
pub(crate) enum Call {
    Scale,
    Dquant,
    Itxb0,
    Itxb1,
    Job,
    JobReported,
    SubBlock,
    SubBlockReported,
    Diff,
    Satd,
    Ssd16b,
    Ssd16i,
    Sad16b,
    SadBi16b,
    Sad16i,
    SadBi16i,
    Help,
}

// As `help` lists them; that one itself is known and not listed.
const CALLS: [Call; 17] = [
    Call::Scale,
    Call::Dquant,
    Call::Itxb0,
    Call::Itxb1,
    Call::Job,
    Call::JobReported,
    Call::SubBlock,
    Call::SubBlockReported,
    Call::Diff,
    Call::Satd,
    Call::Ssd16b,
    Call::Ssd16i,
    Call::Sad16b,
    Call::SadBi16b,
    Call::Sad16i,
    Call::SadBi16i,
    Call::Help,
];

impl Call {
    // Its name, and a blank and a name for each argument.
    fn text(self) -> &'static str {
        match self {
            Call::Scale => "scale QP",
            Call::Dquant => "dquant LOG2_W LOG2_H SCALE OFFSET SHIFT COEF",
            Call::Itxb0 => "itxb0 LOG2_SIZE LOG2_LINE SRC DST",
            Call::Itxb1 => "itxb1 LOG2_SIZE LOG2_LINE SHIFT SRC DST",
            Call::Job => "job START LOG2_W LOG2_H QP OFFSET DQ_SHIFT IT_SHIFT COEF",
            Call::JobReported => {
                "job_reported START LOG2_W LOG2_H QP OFFSET DQ_SHIFT IT_SHIFT COEF"
            }
            Call::SubBlock => {
                "sub_block LOG2_W LOG2_H OFFSET DQ_SHIFT IT_SHIFT FLAG_Y FLAG_U FLAG_V START_Y START_U START_V QP_Y QP_U QP_V COEF"
            }
            Call::SubBlockReported => {
                "sub_block_reported LOG2_W LOG2_H OFFSET DQ_SHIFT IT_SHIFT FLAG_Y FLAG_U FLAG_V START_Y START_U START_V QP_Y QP_U QP_V COEF"
            }
            Call::Diff => "diff WIDTH HEIGHT STRIDE X Y LOG2_W LOG2_H DEPTH ORG CUR DIFF",
            Call::Satd => "satd WIDTH HEIGHT STRIDE X Y W H DEPTH ORG CUR",
            Call::Ssd16b => "ssd_16b WIDTH HEIGHT STRIDE X Y LOG2_W LOG2_H DEPTH ORG CUR",
            Call::Ssd16i => {
                "ssd_16i WIDTH1 HEIGHT1 STRIDE1 WIDTH2 HEIGHT2 STRIDE2 X Y LOG2_W LOG2_H DEPTH ONE TWO"
            }
            Call::Sad16b => {
                "sad_16b WIDTH HEIGHT STRIDE X Y REF_WIDTH REF_HEIGHT REF_STRIDE MV_X MV_Y W H DEPTH ORG REF"
            }
            Call::SadBi16b => {
                "sad_bi_16b REF_WIDTH REF_HEIGHT REF_STRIDE MV_X MV_Y W H DEPTH BI REF"
            }
            Call::Sad16i => "sad_16i WIDTH HEIGHT STRIDE X Y W H DEPTH ORG PRED",
            Call::SadBi16i => "sad_bi_16i W H DEPTH BI PRED",
            Call::Help => "help",
        }
    }

    // How it is written. That of help goes without saying.
    pub(crate) fn form(self) -> Option<&'static str> {
        match self {
            Call::Help => None,
            _ => Some(self.text()),
        }
    }

    // The name of an argument, which are counted from 1.
    pub(crate) fn argument(self, place: usize) -> &'static str {
        self.text().split(' ').nth(place).unwrap_or("")
    }

    fn is_named(self, word: &[u8]) -> bool {
        match self.text().as_bytes().strip_prefix(word) {
            Some(rest) => rest.is_empty() || rest[0] == b' ',
            None => false,
        }
    }

    pub(crate) fn named(word: &[u8]) -> Option<Call> {
        CALLS.iter().copied().find(|c| c.is_named(word))
    }
}

const HEAD: &str =
    "One call to a line, from standard input or from the files that the arguments name:";

const TAIL: &str =
    "ORG CUR DIFF ONE TWO REF PRED BI COEF SRC DST are buffers: a length of at most 16384 and as many numbers, where N*V stands
for N numbers V, as in 4 1 3*0; or LENGTH*V, as in 64*7. All else is one number; a flag is 0 or 1.
The answer: the number and name of a refusal, or 0 and what came; after | the final contents of the buffer that the call may write.
A refused job_reported or sub_block_reported says after ; whose number broke which limit.
A line that starts with # is repeated, an empty one is passed over.";

// What the program says where it is given nothing, or 'help'.
pub(crate) fn usage(o: &mut Room) -> io::Result<()> {
    writeln!(o, "{HEAD}")?;
    for call in CALLS {
        if let Some(form) = call.form() {
            writeln!(o, "  {form}")?;
        }
    }
    writeln!(o, "{TAIL}")
}
