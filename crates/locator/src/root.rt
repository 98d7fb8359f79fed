// The error locations: the erased columns and the roots of the locator polynomial.
ghost use Rattle.std.specs.Prelude.{◌≡◌, ◌⊎◌, ℕ, ◌≤◌, length};
ghost use Rattle.poly.specs.Polynomial.{add};
ghost use Rattle.field.specs.Element.{mul};
ghost use Rattle.reedsolomon.specs.Row.{symbol};
ghost use Rattle.reedsolomon.specs.Steps.{Entries, locator_at, row_value, Flagged, LocatorsOf};

use syndromes::{lists, powers};

// One coefficient c more, at sixteen locators.
pub fn raised(v: &mut [u8], xs: &[u8], c: u8)
    requires { (16 ≤ length v.old) × (16 ≤ length xs.now) }
    ensures { Entries 16 (λ (i : ℕ). add (mul 6 67 (symbol xs.now i) (symbol v.old i)) c) v.new }
{
    for i in 0..16 {
        v[i] = field::product(xs[i], v[i]) ^ c;
    }
}

// The values of the row's polynomial of degree d at sixteen locators.
fn values(row: &[u8], d: usize, xs: [u8; 16]) -> [u8; 16]
    requires { (d ≤ 15) × (32 ≤ length row.now) }
    ensures { Entries 16 (λ (i : ℕ). row_value 6 67 row.now d (symbol xs i)) result }
{
    let mut v = [0u8; 16];
    for k in 0..d + 1 {
        raised(&mut v, &xs, row[16 + (d - k)]);
    }
    v
}

// The values of the row's polynomial of degree d at the locators of all columns.
pub fn all_values(row: &[u8], d: usize) -> [u8; 64]
    requires { (d ≤ 15) × (32 ≤ length row.now) }
    ensures { Entries 63 (λ (j : ℕ). row_value 6 67 row.now d (locator_at 6 67 63 j)) result }
{
    let all = powers::locators();
    let mut r = [0u8; 64];
    for b in 0..4 {
        let xs = lists::block(&all, b);
        let v = values(row, d, xs);
        lists::put(&v, 16, b * 16, &mut r);
    }
    r
}

// 1 for an error location, else 0
fn flag(mark: u8, value: u8) -> u8
    ensures { ((mark ≡ 1) ⊎ (value ≡ 0) → result ≡ 1) × (result ≡ 1 → (mark ≡ 1) ⊎ (value ≡ 0)) }
{
    u8::from(mark == 1 || value == 0)
}

// The marks of the error locations: the marked columns, and those where the value is 0.
pub fn locations(marks: &[u8], values: &[u8]) -> [u8; 64]
    requires { (63 ≤ length marks.now) × (63 ≤ length values.now) }
    ensures { Flagged 6 67 63 marks.now values.now result }
{
    let mut flags = [0u8; 64];
    for j in 0..63 {
        flags[j] = flag(marks[j], values[j]);
    }
    flags
}

// Locators, how many there are, and 0 behind them: they are read in blocks of 16, of which a slice of k would cut off the last.
#[derive(Drop)]
pub struct Listed {
    pub xs: [u8; 64],
    pub k: usize,
}

// The locators of the marked columns in their order.
pub fn locators_of(flags: &[u8]) -> Listed
    requires { 63 ≤ length flags.now }
    ensures { LocatorsOf 6 67 63 flags.now result.xs result.k }
{
    let all = powers::locators();
    let mut xs = [0u8; 64];
    let mut k: usize = 0;
    for j in 0..63 {
        xs[k] = all[j];
        if flags[j] == 1 {
            k += 1;
        }
    }
    xs[k] = 0;
    Listed { xs, k }
}
