// What stage two adds before it shifts. Document 01, "The two stages".
// Differs from the Rust in: it stands once, and is given at every shift, taken modulo 32.
ghost use Rattle.std.specs.Prelude.{◌≡◌, ◌%◌};
ghost use Rattle.evc.specs.Stages as stages;
ghost use Rattle.itx_halving.specs.Lines.{Amount};

// Half of 2^shift, 0 for shift 0. Shifts are at most 31; so that no call is left out, the shift is read modulo 32.
pub fn rounding(shift: u8) -> i64
    ensures { result ≡ stages.rounding (shift % 32) }
{
    (1i64 << (shift % 32)) >> 1
}

// The tail of stage two, the same for every sum: what is added to it, and the shift, which is allowed.
#[derive(Clone, Copy)]
pub struct Tail {
    pub add: i64,
    pub shift: u8,
    ghost amount: { Amount add shift },
}
