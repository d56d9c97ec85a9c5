// Stage two of the inverse transform, the call that others use: the Rust's `itx_pb2b1` .. `itx_pb64b1`, picked by the size. Document 01, "The two
// stages". Three crates side by side do the work, and each answers whether it took the call; what none did is refused.
// Differs from the Rust in: a call that breaks a test is refused and changes nothing.
ghost use Rattle.std.specs.Prelude.{◌≡◌, false, length};
ghost use Rattle.evc.specs.Answers.{answer_number};
ghost use Rattle.evc.specs.Stages.{stage_two_number, itxb1_exit};
ghost use Rattle.itx_halving.specs.Taken.{takes_two};

use evc::Refusal;
use itx_halving::{by_value, stage_two};

// What `itxb1_small` does not do, called in two places as in stage one.
fn large(
    src: &[i32],
    dst: &mut [i16],
    log2_size: usize,
    log2_line: usize,
    shift: u8,
) -> Result<(), Refusal>
    requires { takes_two 1 3 0 log2_size log2_line shift src.now dst.old ≡ false }
    ensures answer { answer_number result ≡ stage_two_number (length src.now) (length dst.old) log2_size log2_line shift }
    ensures exit { dst.new ≡ itxb1_exit log2_size log2_line shift src.now dst.old }
{
    if itxb1_blocks::itxb1(src, dst, log2_size, log2_line, shift) {
        return Ok(());
    }
    if itx_lines::itxb1(src, dst, log2_size, log2_line, shift) {
        return Ok(());
    }
    stage_two(src.len(), dst.len(), log2_size, log2_line, shift)
}

// Stage two of size 2^log2_size on 2^log2_line lines.
pub fn itxb1(
    src: &[i32],
    dst: &mut [i16],
    log2_size: usize,
    log2_line: usize,
    shift: u8,
) -> Result<(), Refusal>
    ensures answer { answer_number result ≡ stage_two_number (length src.now) (length dst.old) log2_size log2_line shift }
    ensures exit { dst.new ≡ itxb1_exit log2_size log2_line shift src.now dst.old }
{
    if 3 < log2_size {
        return by_value(large(&src[..], dst, log2_size, log2_line, shift));
    }
    if itxb1_small::itxb1(src, dst, log2_size, log2_line, shift) {
        return Ok(());
    }
    by_value(large(&src[..], dst, log2_size, log2_line, shift))
}
