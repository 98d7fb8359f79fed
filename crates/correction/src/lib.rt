// The corrected row, and how far it is from the one received.
#![tactic(auto)]

ghost use Rattle.std.specs.Prelude.{◌≡◌, ◌≤◌, eqb, length};
ghost use Rattle.std.proofs.Math.Decide.{ℕ_discrete};
ghost use Rattle.reedsolomon.specs.Words.{count, errors, wrong as wrong_in};
ghost use Rattle.reedsolomon.specs.Row.{symbol, Symbols, marked};
ghost use Rattle.reedsolomon.specs.Steps.{Padded, HasSyndromes, HasErrorLocations, IsCorrection};

use locator::erasure;
use locator::locate::{self, Located};
use locator::root::{self, Listed};
use syndromes::syndrome;

// The marks of the error locations of a row with the syndromes s, of which n columns are erased.
fn error_locations(marks: &[u8], s: [u8; 33], t: usize, n: usize) -> [u8; 64]
    requires { (63 ≤ length marks.now) × (t ≤ 30) × (n ≤ t) × (n ≡ count (marked marks.now) 63) × Symbols 6 s }
    ensures { HasErrorLocations 6 67 63 t marks.now s result }
{
    let mut m = s;
    erasure::modify_syndromes(&mut m, marks, n);
    let Located { row, degree } = locate::locator_polynomial(&m, (t - n) / 2);
    let values = root::all_values(&row, degree);
    root::locations(marks, &values)
}

// A row and its syndromes.
#[derive(Drop)]
pub struct Row {
    pub symbols: [u8; 64],
    pub syndromes: [u8; 33],
}

// The row with its error locations corrected.
pub fn corrected(w: [u8; 64], marks: &[u8], s: [u8; 33], t: usize, n: usize) -> Row
    requires { (63 ≤ length marks.now) × (t ≤ 30) × (n ≤ t) × (n ≡ count (marked marks.now) 63) × Padded 6 63 w × HasSyndromes 6 67 63 t w s }
    ensures { IsCorrection 6 67 63 t marks.now w result.symbols × HasSyndromes 6 67 63 t result.symbols result.syndromes }
{
    let flags = error_locations(marks, s, t, n);
    let Listed { xs, k } = root::locators_of(&flags);
    let g = magnitude::polynomial(&xs, k);
    let ys = magnitude::all_magnitudes(&g, &s, k, &xs);
    let symbols = magnitude::added(w, &flags, &ys);
    let syndromes = syndrome::summed(s, &ys, &xs, k, t);
    Row { symbols, syndromes }
}

// 1 for a column that is not erased and has two symbols that differ, else 0
fn differs(mark: u8, a: u8, b: u8) -> u8
    ensures { result ≡ wrong_in (eqb mark 1) (ℕ_discrete a b) }
{
    u8::from(mark != 1 && a != b)
}

// In how many columns that are not erased two rows differ.
pub fn wrong(w: &[u8], v: &[u8], marks: &[u8]) -> usize
    requires { (63 ≤ length w.now) × (63 ≤ length v.now) × (63 ≤ length marks.now) }
    ensures { result ≡ errors ℕ_discrete (marked marks.now) 63 (symbol w.now) (symbol v.now) }
{
    let mut e: u8 = 0;
    for j in 0..63 {
        e += differs(marks[j], w[j], v[j]);
    }
    usize::from(e)
}
