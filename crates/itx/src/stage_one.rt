// Stage one of the inverse transform, the call that others use: the Rust's `itx_pb2b0` .. `itx_pb64b0`, picked by the size. Document 01, "The two
// stages". Three crates side by side do the work, and each answers whether it took the call; what none did is refused.
// Differs from the Rust in: a call that breaks a test is refused and changes nothing.
ghost use Rattle.std.specs.Prelude.{◌≡◌, false, length};
ghost use Rattle.evc.specs.Answers.{answer_number};
ghost use Rattle.evc.specs.Stages.{stage_one_number, itxb0_exit};
ghost use Rattle.itx_halving.specs.Taken.{takes_one};

use evc::Refusal;
use itx_halving::{by_value, stage_one};

// What `itxb0_small` does not do. It is called in two places: compilers inline what has one caller, and a small call would pay for the buffers of the
// large ones.
fn large(src: &[i16], dst: &mut [i32], log2_size: usize, log2_line: usize) -> Result<(), Refusal>
    requires { takes_one 1 3 0 log2_size log2_line src.now dst.old ≡ false }
    ensures answer { answer_number result ≡ stage_one_number (length src.now) (length dst.old) log2_size log2_line }
    ensures exit { dst.new ≡ itxb0_exit log2_size log2_line src.now dst.old }
{
    if itxb0_blocks::itxb0(src, dst, log2_size, log2_line) {
        return Ok(());
    }
    if itx_lines::itxb0(src, dst, log2_size, log2_line) {
        return Ok(());
    }
    stage_one(src.len(), dst.len(), log2_size, log2_line)
}

// Stage one of size 2^log2_size on 2^log2_line lines.
pub fn itxb0(
    src: &[i16],
    dst: &mut [i32],
    log2_size: usize,
    log2_line: usize,
) -> Result<(), Refusal>
    ensures answer { answer_number result ≡ stage_one_number (length src.now) (length dst.old) log2_size log2_line }
    ensures exit { dst.new ≡ itxb0_exit log2_size log2_line src.now dst.old }
{
    if 3 < log2_size {
        return by_value(large(&src[..], dst, log2_size, log2_line));
    }
    if itxb0_small::itxb0(src, dst, log2_size, log2_line) {
        return Ok(());
    }
    by_value(large(&src[..], dst, log2_size, log2_line))
}
