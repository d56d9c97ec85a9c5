// `evc_dquant`, after the Rust's function of that name. Document 01, "Scale and dequantization".
// Differs from the Rust in: sides, shift and area are tested first, and a call that breaks a test is refused and changes nothing.
ghost use Rattle.std.specs.Prelude.{◌≡◌, length};
ghost use Rattle.evc.specs.Answers.{answer_number};
ghost use Rattle.evc.specs.Dequantizer.{dquant_number, dquant_exit};

use crate::area::Dequantizer;
use evc::Refusal;

#[tactic(auto, using(crate::proofs::Refused::shift_number, crate::proofs::Refused::shift_exit))]
pub fn evc_dquant(
    coef: &mut [i16],
    log2_w: usize,
    log2_h: usize,
    scale: i32,
    offset: i32,
    shift: u8,
) -> Result<(), Refusal>
    ensures answer { answer_number result ≡ dquant_number (length coef.old) log2_w log2_h shift }
    ensures exit { coef.new ≡ dquant_exit log2_w log2_h scale offset shift coef.old }
{
    if (6 < log2_w) | (6 < log2_h) {
        return Err(Refusal::Size);
    }
    if 31 < shift {
        return Err(Refusal::Shift);
    }
    let n = 1usize << (log2_w + log2_h);
    let len = coef.len();
    if len < n {
        return Err(Refusal::Area);
    }
    Dequantizer {
        scale,
        offset,
        shift,
    }
    .each(&mut coef[..n]);
    Ok(())
}
