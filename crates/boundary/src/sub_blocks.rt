// A sub-block call as C hands it in.
ghost use Rattle.std.specs.Prelude.{◌≡◌};
ghost use Rattle.boundary.specs.Given.{part_of, sub_block_of};

use evc::{Part, SubBlock};

fn part(flag: u8, start: usize, qp: u8) -> Option<Part>
    ensures { result ≡ part_of flag start qp }
{
    match flag {
        0 => None,
        _ => Some(Part { start, qp }),
    }
}

pub fn sub_block(
    log2_w: usize,
    log2_h: usize,
    offset: i32,
    dq_shift: u8,
    it_shift: u8,
    flag_y: u8,
    flag_u: u8,
    flag_v: u8,
    start_y: usize,
    start_u: usize,
    start_v: usize,
    qp_y: u8,
    qp_u: u8,
    qp_v: u8,
) -> SubBlock
    ensures { result ≡ sub_block_of log2_w log2_h offset dq_shift it_shift (part_of flag_y start_y qp_y) (part_of flag_u start_u qp_u) (part_of flag_v start_v qp_v) }
{
    SubBlock {
        log2_w,
        log2_h,
        offset,
        dq_shift,
        it_shift,
        y: part(flag_y, start_y, qp_y),
        u: part(flag_u, start_u, qp_u),
        v: part(flag_v, start_v, qp_v),
    }
}
