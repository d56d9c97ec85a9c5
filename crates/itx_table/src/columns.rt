// The sums of the table's columns, times 32768, for the sizes 32 and 64: what a line of inputs that are all 32768 gives. A number of 32 bits is
// 65536 times its upper half, plus 32768, plus a rest of 16 bits with its sign, so a stage that sums upper halves and rests adds these.
// Written by tools/table.py; what they are is proved in proofs/ColumnSums.antt.
ghost use Rattle.std.specs.Prelude.{◌≡◌};
ghost use Rattle.integers.specs.Lists.{tab};
ghost use Rattle.itx_table.specs.Columns.{column};

pub fn columns32() -> [i32; 32]
    ensures { result ≡ tab 32 (column 32) }
{
    [
        61079552, -19464192, 12648448, -7929856, 7143424, -4784128, 5177344, -3211264, 3866624,
        -2359296, 3276800, -1703936, 2686976, -1310720, 2293760, -917504, 2031616, -655360,
        1769472, -393216, 1507328, -196608, 1376256, 0, 1310720, 131072, 1048576, 262144, 786432,
        393216, 655360, 589824,
    ]
}

pub fn columns64() -> [i32; 64]
    ensures { result ≡ tab 64 (column 64) }
{
    [
        121470976, -39747584, 24805376, -16547840, 13926400, -10321920, 9928704, -7307264, 7569408,
        -5603328, 6324224, -4423680, 5341184, -3833856, 4489216, -3047424, 3964928, -2654208,
        3768320, -2195456, 3244032, -1867776, 3047424, -1671168, 2916352, -1474560, 2588672,
        -1277952, 2195456, -1146880, 2064384, -950272, 2129920, -753664, 1933312, -622592, 1802240,
        -491520, 1736704, -294912, 1671168, -294912, 1474560, -229376, 1409024, -229376, 1343488,
        98304, 1212416, 98304, 1212416, 32768, 1015808, 229376, 884736, 163840, 884736, 425984,
        753664, 360448, 688128, 491520, 819200, 688128,
    ]
}
