// The erased columns: how many, and the modified syndromes, from which their locators are taken out.
ghost use Rattle.std.specs.Prelude.{◌≡◌, ℕ, suc, ◌≤◌, ◌<◌, length};
ghost use Rattle.poly.specs.Polynomial.{add};
ghost use Rattle.field.specs.Element.{mul};
ghost use Rattle.reedsolomon.specs.Words.{count};
ghost use Rattle.reedsolomon.specs.Row.{symbol, Symbols, marked};
ghost use Rattle.reedsolomon.specs.Steps.{Written, HasModifiedSyndromes};

use syndromes::powers;

// How many columns are marked.
pub fn number(marks: &[u8]) -> usize
    requires { 63 ≤ length marks.now }
    ensures { result ≡ count (marked marks.now) 63 }
{
    let mut n: u8 = 0;
    for j in 0..63 {
        n += u8::from(marks[j] == 1);
    }
    usize::from(n)
}

// The locator y is taken out of the first 33 entries of s.
pub fn modify(s: &mut [u8], y: u8)
    requires { 32 < length s.old }
    ensures { Written 32 (λ (i : ℕ). add (symbol s.old (suc i)) (mul 6 67 y (symbol s.old i))) s.old s.new }
{
    for i in 0..32 {
        s[i] = s[i + 1] ^ field::product(y, s[i]);
    }
}

// The locators of the n marked columns are taken out of s.
pub fn modify_syndromes(s: &mut [u8], marks: &[u8], n: usize)
    requires { (32 < length s.old) × (63 ≤ length marks.now) × Symbols 6 s.old × (n ≡ count (marked marks.now) 63) }
    ensures { HasModifiedSyndromes 6 67 63 33 marks.now s.old s.new }
{
    if n == 0 {
        return;
    }
    let all = powers::locators();
    for j in 0..63 {
        if marks[j] == 1 {
            modify(s, all[j]);
        }
    }
}
