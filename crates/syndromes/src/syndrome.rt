// The syndromes as power sums: sixteen columns at a time, each symbol times its locator once more for each syndrome.
ghost use Rattle.std.specs.Prelude.{◌≡◌, ℕ, ◌≤◌, length};
ghost use Rattle.poly.specs.Polynomial.{add};
ghost use Rattle.field.specs.Element.{mul};
ghost use Rattle.reedsolomon.specs.Sums.{sum};
ghost use Rattle.reedsolomon.specs.Words.{Elements};
ghost use Rattle.reedsolomon.specs.Row.{symbol, Symbols};
ghost use Rattle.reedsolomon.specs.Steps.{Element, Entries, Written, Padded, locator_sum, Summed, HasSyndromes};

use crate::{lists, powers};

// Each of sixteen symbols times its locator.
fn powered(c: &mut [u8], xs: &[u8])
    requires { (16 ≤ length c.old) × (16 ≤ length xs.now) }
    ensures { Entries 16 (λ (i : ℕ). mul 6 67 (symbol xs.now i) (symbol c.old i)) c.new }
{
    for i in 0..16 {
        c[i] = field::product(xs[i], c[i]);
    }
}

// The sum of sixteen symbols.
fn total(c: &[u8]) -> u8
    requires { 16 ≤ length c.now }
    ensures { result ≡ sum add 0 16 (symbol c.now) }
{
    let mut a: u8 = 0;
    for i in 0..16 {
        a ^= c[i];
    }
    a
}

// The first t power sums of sixteen symbols at their locators are added to s.
fn add_sums(w: [u8; 16], xs: [u8; 16], t: usize, s: &mut [u8])
    requires { (t ≤ length s.old) × Elements (Element 6 67) 16 (symbol w) }
    ensures { Written t (λ (i : ℕ). add (symbol s.old i) (locator_sum 6 67 16 (symbol w) (symbol xs) i)) s.old s.new }
{
    let mut c = w;
    for i in 0..t {
        powered(&mut c, &xs);
        s[i] ^= total(&c);
    }
}

// The first t power sums of k symbols at their locators are added to s.
pub fn summed(s: [u8; 33], w: &[u8], xs: &[u8], k: usize, t: usize) -> [u8; 33]
    requires { (k ≤ 64) × (t ≤ 33) × (64 ≤ length w.now) × (64 ≤ length xs.now) × Symbols 6 w.now }
    ensures { Summed 6 67 k t w.now xs.now s result }
{
    let mut r = s;
    for b in 0..k.div_ceil(16) {
        let x = lists::block(w, b);
        let y = lists::block(xs, b);
        add_sums(x, y, t, &mut r);
    }
    r
}

// The first t syndromes of a row.
pub fn syndromes(w: &[u8], t: usize) -> [u8; 33]
    requires { (64 ≤ length w.now) × (t ≤ 33) × Padded 6 63 w.now }
    ensures { HasSyndromes 6 67 63 t w.now result }
{
    let all = powers::locators();
    let s = [0u8; 33];
    summed(s, w, &all, 64, t)
}
