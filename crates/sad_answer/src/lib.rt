// The answer of a SAD by its sum and its marks, which the SADs of samples and of bi-prediction values share. Document 01, "Refusal numbers" and
// "Distortion".
// Differs from the Rust in: the Rust tests nothing; the total is divided once, by a depth that is an argument.
#![tactic(auto)]

ghost use Rattle.std.specs.Prelude.{◌≡◌, [], ◌∷◌, ◌-◌, ◌/◌, ◌^◌, leb};
ghost use Rattle.evc.specs.Answers.{reading};
ghost use Rattle.evc.specs.declared.Refusal.TheVariants as number;
ghost use Rattle.evc.specs.Tests.{first, reply, ◌when◌};
ghost use Rattle.evc.specs.Calls.{depth_test};
ghost use Rattle.sad_answer.specs.In32.{in32};

use evc::Refusal;

// The SAD of absolute differences that add up to sum, with the OR of their marks. It ends at the largest number of 32 bits, which no two blocks
// reach: so the sum is given in 64 bits, in which the loops add rows, and compilers keep the shape of those.
pub fn sad_answer(sum: u64, any: u16, depth: u8) -> Result<u32, Refusal>
    ensures { reading result ≡ reply (first (depth_test depth ∷ (number.Sample when leb (2 ^ depth) any) ∷ [])) (in32 (sum / 2 ^ (depth - 8))) }
{
    if plane_tests::bad_depth(depth) {
        return Err(Refusal::Depth);
    }
    if sample_tests::bad_samples(any, depth) {
        return Err(Refusal::Sample);
    }
    let sad = sum >> (depth - 8);
    let value = sad.min(4294967295) as u32;
    Ok(value)
}
