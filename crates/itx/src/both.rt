// Both stages of the inverse transform on one area, with the block between them. Document 01, "The two stages".
// Differs from the Rust in: the area is lent and no more of the buffer; the block between is the call's own, and no longer than 16, 64, 1,024 or
// 4,096 samples, since clearing it costs more than a small job.
ghost use Rattle.std.specs.Prelude.{◌≡◌, ◌≤◌, length};
ghost use Rattle.evc.specs.Stages.{itxb0_exit, itxb1_exit};
ghost use Rattle.itx.specs.Both.{through, both_exit};

// Both stages, with a block between them. Stage one has the size height and width lines, stage two the size width and height lines.
// A stage that refuses leaves what it would write, which is all that is said of it here, so no answer is told.
fn stages_over(part: &mut [i16], between: &mut [i32], log2_w: usize, log2_h: usize, shift: u8)
    ensures { part.new ≡ itxb1_exit log2_w log2_h shift (itxb0_exit log2_h log2_w part.old between.old) part.old }
{
    let _ = crate::stage_one::itxb0(&part[..], &mut between[..], log2_h, log2_w);
    let _ = crate::stage_two::itxb1(&between[..], &mut part[..], log2_w, log2_h, shift);
}

// The block between the stages is as long as the area: cut from one of N numbers. The size is a const parameter, so that each has a function of its own,
// and the large ones lie in the same place of the stack.
fn with_block<const N: usize>(part: &mut [i16], log2_w: usize, log2_h: usize, shift: u8)
    requires { (length part.old ≤ N) × (N ≤ 4096) }
    ensures { part.new ≡ through log2_w log2_h shift part.old }
{
    let n = part.len();
    let mut between = [0i32; N];
    stages_over(&mut part[..], &mut between[..n], log2_w, log2_h, shift);
}

// Both stages on exactly an area. No area is longer than 4,096 samples, and nothing longer is touched.
pub fn both_stages(part: &mut [i16], log2_w: usize, log2_h: usize, shift: u8)
    ensures { part.new ≡ both_exit log2_w log2_h shift part.old }
{
    let n = part.len();
    if n <= 16 {
        with_block::<16>(part, log2_w, log2_h, shift);
    } else if n <= 64 {
        with_block::<64>(part, log2_w, log2_h, shift);
    } else if n <= 1024 {
        with_block::<1024>(part, log2_w, log2_h, shift);
    } else if n <= 4096 {
        with_block::<4096>(part, log2_w, log2_h, shift);
    }
}
