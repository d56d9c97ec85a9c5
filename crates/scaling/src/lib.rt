// The scale of a qp, after the Rust's `evc_tbl_dq_scale_b[qp % 6] << (qp / 6)`. Document 01, "Scale and dequantization".
// Differs from the Rust in: a qp above 63 is refused.
#![tactic(auto)]

ghost use Rattle.std.specs.Prelude.{◌≡◌, pos};
ghost use Rattle.evc.specs.Answers.{reading, value_or};
ghost use Rattle.evc.specs.Dequantizer.{scale_reply};

use evc::Refusal;

#[tactic(auto, using(crate::proofs::Scales::qp_refused))]
pub fn scale(qp: u8) -> Result<i32, Refusal>
    ensures { reading result ≡ scale_reply qp }
{
    if qp > 63 {
        return Err(Refusal::Qp);
    }
    let number: i32 = match qp % 6 {
        0 => 40,
        1 => 45,
        2 => 51,
        3 => 57,
        4 => 64,
        _ => 71,
    };
    Ok(number << (qp / 6))
}

// The scale of a qp that has passed its test; of any other, which no accepted job has, 0.
pub fn scale_of(qp: u8) -> i32
    ensures { result ≡ value_or (scale_reply qp) (pos 0) }
{
    scale(qp).unwrap_or(0)
}
