// Answers as the paper's numbers, and what an answer holds besides into the place that a caller lends for it. A refusal leaves the place of a
// value as it was; an accepted sub-block call leaves the place of a component as it was.
ghost use Rattle.std.specs.Prelude.{◌≡◌};
ghost use Rattle.evc.specs.Answers.{answer_number, reading, sub_reading};
ghost use Rattle.boundary.specs.Told.{Told, SubTold};

use evc::{Refusal, SubRefusal};

pub fn answer_number(a: Result<(), Refusal>) -> u8
    ensures { result ≡ answer_number a }
{
    match a {
        Ok(()) => 0,
        Err(r) => u8::from(r),
    }
}

pub fn tell<T: Copy>(answer: Result<T, Refusal>, value: &mut T) -> u8
    ensures { Told (reading answer) value.old value.new result }
{
    match answer {
        Ok(v) => {
            *value = v;
            0
        }
        Err(refusal) => u8::from(refusal),
    }
}

pub fn tell_sub_block(a: Result<(), SubRefusal>, component: &mut u8) -> u8
    ensures { SubTold (sub_reading a) component.old component.new result }
{
    match a {
        Ok(()) => 0,
        Err(e) => {
            *component = u8::from(e.component);
            u8::from(e.refusal)
        }
    }
}
