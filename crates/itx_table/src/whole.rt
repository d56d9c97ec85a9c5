// The table of document 01, "The transform tables": the Rust's `evc_tbl_tm64`, row after row in one array.
ghost use Rattle.std.specs.Prelude.{◌≡◌};
ghost use Rattle.itx_table.specs.Flat.{flat};

use super::tm::TM;

// The whole table. A constant is built anew wherever it is read: take it once for a call, and lend it on.
pub fn table() -> [i8; 4096]
    ensures { result ≡ flat }
{
    TM
}
