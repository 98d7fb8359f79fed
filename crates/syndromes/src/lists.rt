// Loops over lists of symbols that more than one step needs.
ghost use Rattle.std.specs.Prelude.{ℕ, ◌+◌, ◌*◌, ◌≤◌, length};
ghost use Rattle.poly.specs.Polynomial.{add};
ghost use Rattle.field.specs.Element.{mul};
ghost use Rattle.reedsolomon.specs.Row.{symbol};
ghost use Rattle.reedsolomon.specs.Steps.{Entries, WrittenAt, AllZero};

// Puts the first n entries of a into b from the entry `at` on.
pub fn put(a: &[u8], n: usize, at: usize, b: &mut [u8])
    requires { (n ≤ length a.now) × (at + n ≤ length b.old) }
    ensures { WrittenAt at n (symbol a.now) b.old b.new }
{
    for i in 0..n {
        b[at + i] = a[i];
    }
}

// Block b of 16 entries.
pub fn block(a: &[u8], b: usize) -> [u8; 16]
    requires { b * 16 + 16 ≤ length a.now }
    ensures { Entries 16 (λ (i : ℕ). symbol a.now (b * 16 + i)) result }
{
    let from = b * 16;
    let mut r = [0u8; 16];
    for i in 0..16 {
        r[i] = a[from + i];
    }
    r
}

// Whether the first n entries are all 0.
pub fn all_zero(a: &[u8], n: usize) -> bool
    requires { n ≤ length a.now }
    ensures { AllZero n a.now result }
{
    a[..n].iter().all(|&x| x == 0)
}

// f times the n entries of b from the entry `from` on are added to the first n of a.
pub fn add_multiple(a: &mut [u8], b: &[u8], from: usize, n: usize, f: u8)
    requires { (n ≤ length a.old) × (from + n ≤ length b.now) }
    ensures { Entries n (λ (i : ℕ). add (symbol a.old i) (mul 6 67 f (symbol b.now (from + i)))) a.new }
{
    for i in 0..n {
        a[i] ^= field::product(f, b[from + i]);
    }
}
