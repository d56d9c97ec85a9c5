// Which calls of a stage a crate takes: sizes from 2^lo to 2^hi of 2^least lines or more, that break no test. Document 01, "Refusal numbers, in
// the order they are tested".
ghost use Rattle.std.specs.Prelude.{◌≡◌};
ghost use Rattle.evc.specs.Stages.{stage_two_number};
ghost use Rattle.itx_halving.specs.Taken.{takes};

use crate::tests::stage_two;

// The limits are literals where this is called, so that a compiler makes each crate its own test. Stage one's shift is 0.
pub fn takes(
    lo: usize,
    hi: usize,
    least: usize,
    n: usize,
    m: usize,
    log2_size: usize,
    log2_line: usize,
    shift: u8,
) -> bool
    ensures { result ≡ takes lo hi least log2_size log2_line (stage_two_number n m log2_size log2_line shift) }
{
    if (log2_size < lo) | (hi < log2_size) | (log2_line < least) {
        return false;
    }
    stage_two(n, m, log2_size, log2_line, shift).is_ok()
}
