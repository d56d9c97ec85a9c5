// The tests of the two stages, of size 2^log2_size on 2^log2_line lines, with an input of `src` and an output of `dst` places.
// Differs from the Rust in: it has no such tests. What a bad call does there, docs/DIFFERENCES.md says.
ghost use Rattle.std.specs.Prelude.{◌≡◌};
ghost use Rattle.evc.specs.Answers.{answer_number};
ghost use Rattle.evc.specs.Stages.{stage_one_number, stage_two_number};

use evc::Refusal;

#[tactic(auto, using(crate::proofs::tests::Laws::stage_tests))]
pub fn stage_two(
    src: usize,
    dst: usize,
    log2_size: usize,
    log2_line: usize,
    shift: u8,
) -> Result<(), Refusal>
    ensures { answer_number result ≡ stage_two_number src dst log2_size log2_line shift }
{
    if (log2_size < 1) | (6 < log2_size) | (6 < log2_line) {
        return Err(Refusal::Size);
    }
    if 31 < shift {
        return Err(Refusal::Shift);
    }
    let n = 1usize << (log2_size + log2_line);
    if (n <= src) & (n <= dst) {
        Ok(())
    } else {
        Err(Refusal::Area)
    }
}

// Stage one has stage two's tests but for the shift, so that its own are those with a shift that breaks none.
pub fn stage_one(src: usize, dst: usize, log2_size: usize, log2_line: usize) -> Result<(), Refusal>
    ensures { answer_number result ≡ stage_one_number src dst log2_size log2_line }
{
    stage_two(src, dst, log2_size, log2_line, 0)
}
