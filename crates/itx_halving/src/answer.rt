// An answer that came by memory, as a value again.
ghost use Rattle.std.specs.Prelude.{◌≡◌};
ghost use Rattle.evc.specs.Answers.{answer_number};

use evc::Refusal;

// A small call answers at once; copied together with what came by memory its answer would be read wider than it was written, and a processor waits
// there longer than a 2 by 2 block takes.
pub fn by_value(a: Result<(), Refusal>) -> Result<(), Refusal>
    ensures { answer_number result ≡ answer_number a }
{
    match a {
        Ok(()) => Ok(()),
        Err(r) => Err(r),
    }
}
