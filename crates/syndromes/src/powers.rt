// The powers of α: 01's constant table, and the locators of the columns, which are read off it.
ghost use Rattle.std.specs.Prelude.{◌≡◌};
ghost use Rattle.reedsolomon.specs.PowerTable.{power_table};
ghost use Rattle.reedsolomon.specs.Steps.{Entries, locator_at};

// 01: "The powers α^0 to α^62 stand in a constant table."
const POWERS: [u8; 63] = [
    1, 2, 4, 8, 16, 32, 3, 6, 12, 24, 48, 35, 5, 10, 20, 40, 19, 38, 15, 30, 60, 59, 53, 41, 17,
    34, 7, 14, 28, 56, 51, 37, 9, 18, 36, 11, 22, 44, 27, 54, 47, 29, 58, 55, 45, 25, 50, 39, 13,
    26, 52, 43, 21, 42, 23, 46, 31, 62, 63, 61, 57, 49, 33,
];

// The table of powers.
pub fn powers() -> [u8; 63]
    ensures { result ≡ power_table 6 67 63 }
{
    POWERS
}

// The locators of the 63 columns, α^62 first, and a 0 behind them, so that there are four blocks of 16. The loop goes inwards from both ends: it is short
// enough for the compiler to make a constant of it.
pub fn locators() -> [u8; 64]
    ensures { Entries 63 (locator_at 6 67 63) result }
{
    let all = powers();
    let mut r = [0u8; 64];
    for i in 0..32 {
        r[i] = all[62 - i];
        r[62 - i] = all[i];
    }
    r
}
