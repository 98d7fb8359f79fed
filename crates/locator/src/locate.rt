// The locator polynomial by elimination: a row of 32 entries is 16 combinations and then 16 coefficients, and each equation has a slot for an earlier row.
ghost use Rattle.std.specs.Prelude.{◌≡◌, ℕ, ◌+◌, ◌*◌, ◌≤◌, ◌<◌, length, Some, unwrap_or};
ghost use Rattle.poly.specs.Polynomial.{add};
ghost use Rattle.field.specs.Element.{mul};
ghost use Rattle.reedsolomon.specs.Row.{symbol, Symbols};
ghost use Rattle.reedsolomon.specs.Steps.{Entries, Begun, RowAt, SlotsAt, StoppedAt};

use syndromes::lists;

// The row of degree b as it begins: a 1 at b alone, whose combinations are the entries from b on.
fn begun(m: &[u8], b: usize) -> [u8; 32]
    requires { (b ≤ 15) × (31 ≤ length m.now) }
    ensures { Begun 6 67 m.now b result }
{
    let mut row = [0u8; 32];
    for i in 0..16 {
        row[i] = m[i + b];
    }
    row[16 + b] = 1;
    row
}

// t times the row in slot k is added to the row.
fn combine(row: &mut [u8], slots: &[u8], k: usize, t: u8)
    requires { (32 ≤ length row.old) × (k * 32 + 32 ≤ length slots.now) }
    ensures { Entries 32 (λ (i : ℕ). add (symbol row.old i) (mul 6 67 t (symbol slots.now (k * 32 + i)))) row.new }
{
    lists::add_multiple(row, slots, k * 32, 32, t);
}

// A row that was tried, and the equation at which it stopped; none, if it meets them all.
#[derive(Drop)]
pub struct Tried {
    pub row: [u8; 32],
    pub stop: Option<usize>,
}

// The row of degree b, to which the rows in the slots are added as long as there is one where it is needed.
fn attempt(m: &[u8], n: usize, slots: &[u8], qs: &[u8], b: usize) -> Tried
    requires { (n ≤ 15) × (b ≤ n) × (31 ≤ length m.now) × (length slots.now ≡ 512) × (length qs.now ≡ 16) × Symbols 6 m.now × SlotsAt 6 67 n m.now slots.now qs.now b }
    ensures { StoppedAt 6 67 n m.now qs.now result.row b (unwrap_or result.stop n) × ((i : ℕ) → result.stop ≡ Some i → i < n) }
{
    let mut row = begun(m, b);
    for i in 0..n {
        let v = row[i];
        if v != 0 {
            let q = qs[i];
            // the slot is empty: an inverse is never 0
            if q == 0 {
                return Tried { row, stop: Some(i) };
            }
            let t = field::product(v, q);
            combine(&mut row, slots, i, t);
        }
    }
    Tried { row, stop: None }
}

// A locator polynomial: its row, and the degree.
#[derive(Drop)]
pub struct Located {
    pub row: [u8; 32],
    pub degree: usize,
}

// The first row that meets all n equations.
pub fn locator_polynomial(m: &[u8], n: usize) -> Located
    requires { (n ≤ 15) × (31 ≤ length m.now) × Symbols 6 m.now }
    ensures { (result.degree ≤ n) × RowAt 6 67 n m.now result.row result.degree n }
{
    let mut slots = [0u8; 512];
    let mut qs = [0u8; 16];
    for b in 0..n {
        let Tried { row, stop } = attempt(m, n, &slots, &qs, b);
        let Some(i) = stop else {
            return Located { row, degree: b };
        };
        lists::put(&row, 32, i * 32, &mut slots);
        qs[i] = field::inverse(row[i]);
    }
    let Tried { row, .. } = attempt(m, n, &slots, &qs, n);
    Located { row, degree: n }
}
