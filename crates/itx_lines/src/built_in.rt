// The sums of a line with document 01's own table. Document 01, "The transform tables". Up to size 32 the table stands beside the code
// that reads it, at places that are literals: a compiler makes its numbers constants, and no table is left at run time. For the last level of
// size 64 it is lent.
ghost use Rattle.std.specs.Prelude.{◌≡◌};
ghost use Rattle.evc.specs.Table.{tm};
ghost use Rattle.itx_table.specs.Flat.{flat};
ghost use Rattle.itx_halving.specs.Line.{Inputs, Sums};
ghost use Rattle.itx_lines.specs.Sizes.{Size};

use super::line::{half64, line16, line32, steps};

// The size is a const parameter, so that each has code of its own. Sizes 16 and 32 leave the lent table alone.
pub(crate) fn built_in<const N: usize>(t: &[i8; 4096], x: &[i64; N], e: &mut [i64; N])
    requires { (Size N × (t.now ≡ flat)) × Inputs x.now N }
    ensures { Sums e.new (tm N) 1 N x.now }
{
    let u = itx_table::table();
    match N {
        16 => line16(&u, 256, x, e),
        32 => line32(&u, 128, x, e),
        _ => {
            half64(&u, 64, x, e);
            steps(t, 64, x, e, 32, 1, 0, 32);
        }
    }
}
