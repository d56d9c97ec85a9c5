// The body of the Rust's `evc_dquant`: one coefficient, and the loops. Document 01, "Scale and dequantization".
// Differs from the Rust in: the loops are given their area, no more of the buffer.
ghost use Rattle.std.specs.Prelude.{◌≤◌, ◌≡◌, map};
ghost use Rattle.evc.specs.Dequantizer.{dequantized};

// The numbers of a call whose shift has passed its test.
#[derive(Clone, Copy)]
pub(crate) struct Dequantizer {
    pub(crate) scale: i32,
    pub(crate) offset: i32,
    pub(crate) shift: u8,
    ghost passed: { shift ≤ 31 },
}

impl Dequantizer {
    // One coefficient. The sum is formed in 64 bits, where it can't overflow; a signed `>>` rounds toward minus infinity.
    fn one(self, v: i16) -> i16
        ensures { result ≡ dequantized self.scale self.offset self.shift v }
    {
        let sum = (v as i64) * (self.scale as i64) + (self.offset as i64);
        integers::clip16(sum >> self.shift)
    }

    // Each of a run of coefficients.
    fn run(self, area: &mut [i16])
        ensures { area.new ≡ map (dequantized self.scale self.offset self.shift) area.old }
    {
        for v in area.iter_mut() {
            *v = self.one(*v);
        }
    }

    // Each coefficient of an area. An area with a number of fours, as every larger one has, goes four at a time: so the loop's own steps cost less. The
    // fours are cut by hand, since `chunks_exact_mut` promises nothing of what is written through it.
    pub(crate) fn each(self, area: &mut [i16])
        ensures { area.new ≡ map (dequantized self.scale self.offset self.shift) area.old }
    {
        if area.len() % 4 != 0 {
            self.run(area);
        } else {
            for i in 0..area.len() / 4 {
                let k = i * 4;
                self.run(&mut area[k..k + 4]);
            }
        }
    }
}
