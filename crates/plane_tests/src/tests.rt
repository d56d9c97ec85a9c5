// What every call tests before it reads a sample: sides, depth, and that all that is to be read lies inside its buffer. A test is true where
// something is not allowed. Document 01, "Refusal numbers", "Numbers of the domain" and "Distortion". All sums are exact: near the largest
// usize a test fails, and nothing wraps.
// Differs from the Rust in: the Rust tests nothing; positions are added in 32 bits.
ghost use Rattle.std.specs.Prelude.{◌≡◌, ◌||◌, ◌+◌, ◌%◌, ◌≤◌, ltb, eqb};
ghost use Rattle.order.specs.Positions.{reach};
ghost use Rattle.evc.specs.Tests as of;
ghost use Rattle.evc.specs.Planes as plane;
ghost use Rattle.plane_tests.specs.Areas.{is_bad_plane, is_outside_plane, is_outside_edges};

// x is below lo or above hi.
fn outside(lo: usize, hi: usize, x: usize) -> bool
    ensures { result ≡ of.outside lo hi x }
{
    (x < lo) | (hi < x)
}

// Either side of a SAD's block is not allowed.
pub fn bad_sides(w: usize, h: usize) -> bool
    ensures { result ≡ of.outside 1 64 w || of.outside 1 64 h }
{
    outside(1, 64, w) | outside(1, 64, h)
}

// Either side of a SATD's block is not allowed.
pub fn bad_even_sides(w: usize, h: usize) -> bool
    ensures { result ≡ (of.outside 2 64 w || eqb (w % 2) 1) || (of.outside 2 64 h || eqb (h % 2) 1) }
{
    (outside(2, 64, w) | (w % 2 == 1)) | (outside(2, 64, h) | (h % 2 == 1))
}

// Either side's logarithm is not allowed.
pub fn bad_logs(log2_w: usize, log2_h: usize) -> bool
    ensures { result ≡ ltb 6 log2_w || ltb 6 log2_h }
{
    (6 < log2_w) | (6 < log2_h)
}

// n samples are too few for rows of this width, height and stride. The product of two large numbers isn't formed.
fn too_short(n: usize, width: usize, height: usize, stride: usize) -> bool
    requires { (1 ≤ height) × (height ≤ 16384) }
    ensures { result ≡ ltb n (reach 0 width stride height) }
{
    if n < width {
        return true;
    }
    let room = n - width;
    let rows = height - 1;
    if stride < 4294967296 {
        return room < rows * stride;
    }
    room / stride < rows
}

// A plane of n samples breaks the rule of planes.
pub fn bad_plane(n: usize, width: usize, height: usize, stride: usize) -> bool
    ensures { result ≡ is_bad_plane n width height stride }
{
    if outside(1, 16384, width) {
        return true;
    }
    if outside(1, 16384, height) {
        return true;
    }
    if stride < width {
        return true;
    }
    too_short(n, width, height, stride)
}

// w places from x on reach past a side.
fn beyond(x: usize, w: usize, side: usize) -> bool
    ensures { result ≡ ltb side (x + w) }
{
    side < w || side - w < x
}

// The same from a place that may be negative: both are counted from the lowest i16 on.
fn past(x: i16, w: usize, side: usize) -> bool
    requires { side ≤ 16384 }
    ensures { result ≡ plane.past_edge x w side }
{
    let from = ((x as i32) + 32768) as usize;
    beyond(from, w, side + 32768)
}

// w by h samples from (x, y) don't lie inside a plane of n samples, or it is malformed.
pub fn outside_plane(
    n: usize,
    width: usize,
    height: usize,
    stride: usize,
    x: usize,
    y: usize,
    w: usize,
    h: usize,
) -> bool
    ensures { result ≡ is_outside_plane n width height stride x y w h }
{
    if bad_plane(n, width, height, stride) {
        return true;
    }
    if beyond(x, w, width) {
        true
    } else {
        beyond(y, h, height)
    }
}

// The same where x and y may be negative: only the far edges count.
pub fn outside_edges(
    n: usize,
    width: usize,
    height: usize,
    stride: usize,
    x: i16,
    y: i16,
    w: usize,
    h: usize,
) -> bool
    ensures { result ≡ is_outside_edges n width height stride x y w h }
{
    if bad_plane(n, width, height, stride) {
        return true;
    }
    if past(x, w, width) {
        true
    } else {
        past(y, h, height)
    }
}

// A depth that is not allowed.
pub fn bad_depth(depth: u8) -> bool
    ensures { result ≡ of.outside 8 14 depth }
{
    (depth < 8) | (14 < depth)
}
