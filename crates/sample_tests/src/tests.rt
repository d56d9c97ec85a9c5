// SAMPLE, by marks that a loop ORs beside its sum: a sample is its own mark, and a mark that reaches 2^depth refuses the call. Document 01, "Refusal
// numbers".
// Differs from the Rust in: the Rust tests nothing. The loops have no way out, so that they become vector code.
ghost use Rattle.std.specs.Prelude.{◌≡◌, ◌^◌, leb};

// A mark is too large, by the OR of all. Of a depth that 16 bits don't reach, none is.
pub fn bad_samples(any: u16, depth: u8) -> bool
    ensures { result ≡ leb (2 ^ depth) any }
{
    if 15 < depth {
        return false;
    }
    any >> depth != 0
}
