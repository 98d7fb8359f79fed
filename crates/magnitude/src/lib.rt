// The error locations' polynomial, and what is to be added at each of them: sixteen at a time by synthetic division.
#![tactic(auto)]

ghost use Rattle.std.specs.Prelude.{true, ℕ, ◌+◌, ◌-◌, ◌≤◌, length};
ghost use Rattle.poly.specs.Polynomial.{add};
ghost use Rattle.field.specs.Element.{mul, inverse};
ghost use Rattle.reedsolomon.specs.Quotient.{magnitude};
ghost use Rattle.reedsolomon.specs.Product.{ProductPolynomial};
ghost use Rattle.reedsolomon.specs.Row.{symbol, Symbols};
ghost use Rattle.reedsolomon.specs.Steps.{Element, Entries, Added};

use locator::{erasure, root};
use syndromes::lists;

// The polynomial with the first k locators as its roots, its last coefficient in entry 31.
pub fn polynomial(xs: &[u8], k: usize) -> [u8; 33]
    requires { (k ≤ 31) × (k ≤ length xs.now) }
    ensures { ProductPolynomial (Element 6 67) add (mul 6 67) 0 1 (symbol xs.now) (λ (i : ℕ). true) k 31 (symbol result) }
{
    let mut g = [0u8; 33];
    g[31] = 1;
    for i in 0..k {
        erasure::modify(&mut g, xs[i]);
    }
    g
}

// d becomes d times xs plus q.
fn fold(d: &mut [u8], xs: &[u8], q: &[u8])
    requires { (16 ≤ length d.old) × (16 ≤ length xs.now) × (16 ≤ length q.now) }
    ensures { Entries 16 (λ (i : ℕ). add (mul 6 67 (symbol xs.now i) (symbol d.old i)) (symbol q.now i)) d.new }
{
    for i in 0..16 {
        d[i] = field::product(xs[i], d[i]) ^ q[i];
    }
}

// a becomes a plus e times q.
fn gather(a: &mut [u8], q: &[u8], e: u8)
    requires { (16 ≤ length a.old) × (16 ≤ length q.now) }
    ensures { Entries 16 (λ (i : ℕ). add (symbol a.old i) (mul 6 67 e (symbol q.now i))) a.new }
{
    lists::add_multiple(a, q, 0, 16, e);
}

// Sixteen products.
fn products(a: [u8; 16], b: [u8; 16]) -> [u8; 16]
    ensures { Entries 16 (λ (i : ℕ). mul 6 67 (symbol a i) (symbol b i)) result }
{
    let mut c = a;
    for i in 0..16 {
        c[i] = field::product(c[i], b[i]);
    }
    c
}

// Sixteen inverses.
fn inverses(a: [u8; 16]) -> [u8; 16]
    ensures { Entries 16 (λ (i : ℕ). inverse 6 67 (symbol a i)) result }
{
    let a2 = products(a, a);
    let a3 = products(a2, a);
    let a6 = products(a3, a3);
    let a12 = products(a6, a6);
    let a15 = products(a12, a3);
    let a30 = products(a15, a15);
    let a31 = products(a30, a);
    products(a31, a31)
}

// What is to be added at sixteen locators, where g is the polynomial of k error locations and s are the syndromes.
fn magnitudes(g: &[u8], s: &[u8], k: usize, xs: [u8; 16]) -> [u8; 16]
    requires { (k ≤ 31) × (33 ≤ length g.now) × (k ≤ length s.now) }
    ensures { Entries 16 (λ (i : ℕ). magnitude add (mul 6 67) 0 (inverse 6 67) k (symbol s.now) (λ (j : ℕ). symbol g.now (31 - k + j)) (symbol xs i)) result }
{
    let mut q = [0u8; 16];
    let mut d = [0u8; 16];
    let mut a = [0u8; 16];
    for j in 0..k {
        root::raised(&mut q, &xs, g[31 - k + j]);
        fold(&mut d, &xs, &q);
        gather(&mut a, &q, s[k - (j + 1)]);
    }
    let e = products(d, xs);
    let f = inverses(e);
    products(a, f)
}

// What is to be added at each of the k error locations.
pub fn all_magnitudes(g: &[u8], s: &[u8], k: usize, xs: &[u8]) -> [u8; 64]
    requires { (k ≤ 31) × (33 ≤ length g.now) × (k ≤ length s.now) × (64 ≤ length xs.now) }
    ensures { Entries k (λ (i : ℕ). magnitude add (mul 6 67) 0 (inverse 6 67) k (symbol s.now) (λ (j : ℕ). symbol g.now (31 - k + j)) (symbol xs.now i)) result × Symbols 6 result }
{
    let mut ys = [0u8; 64];
    for b in 0..k.div_ceil(16) {
        let x = lists::block(xs, b);
        let y = magnitudes(g, s, k, x);
        lists::put(&y, 16, b * 16, &mut ys);
    }
    ys
}

// The row with the magnitudes added at the error locations.
pub fn added(w: [u8; 64], flags: &[u8], ys: &[u8]) -> [u8; 64]
    requires { (63 ≤ length flags.now) × (63 ≤ length ys.now) }
    ensures { Added 6 67 63 flags.now ys.now w result }
{
    let mut v = w;
    let mut k: usize = 0;
    for j in 0..63 {
        if flags[j] == 1 {
            v[j] ^= ys[k];
            k += 1;
        }
    }
    v
}
