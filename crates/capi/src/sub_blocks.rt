// The sub-block call.
ghost use Rattle.std.specs.Prelude.{◌≡◌};
ghost use Rattle.boundary.specs.Given.{part_of, sub_block_of};
ghost use Rattle.capi.specs.Boundary.{SubDone};

use boundary::tell_sub_block;

#[unsafe(no_mangle)]
pub extern "C" fn tv_sub_block(
    coef: &mut [i16],
    log2_w: usize,
    log2_h: usize,
    offset: i32,
    dq_shift: u8,
    it_shift: u8,
    flag_y: u8,
    flag_u: u8,
    flag_v: u8,
    start_y: usize,
    start_u: usize,
    start_v: usize,
    qp_y: u8,
    qp_u: u8,
    qp_v: u8,
    component: &mut u8,
) -> u8
    ensures { SubDone
        (sub_block_of log2_w log2_h offset dq_shift it_shift (part_of flag_y start_y qp_y) (part_of flag_u start_u qp_u) (part_of flag_v start_v qp_v))
        coef.old coef.new component.old component.new result }
{
    let call = boundary::sub_block(
        log2_w, log2_h, offset, dq_shift, it_shift, flag_y, flag_u, flag_v, start_y, start_u,
        start_v, qp_y, qp_u, qp_v,
    );
    tell_sub_block(sub_block::evc_sub_block_itdq2(coef, call), component)
}
