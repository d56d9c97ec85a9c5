// SAMPLE of a bi-prediction value, as a mark that a loop can OR to the samples. Document 01, "Refusal numbers".
// Differs from the Rust in: the Rust tests nothing.
ghost use Rattle.std.specs.Prelude.{◌≡◌};
ghost use Rattle.sad_bi.specs.Marks.{low_mark_of};

// The mark of a bi-prediction value: one that no depth holds where the value is too low.
#[tactic(auto, using(crate::proofs::LowMark::marked))]
pub(crate) fn low_mark(v: i16) -> u16
    ensures { result ≡ low_mark_of v }
{
    if v < -16384 { 65535 } else { 0 }
}
