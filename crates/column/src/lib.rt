// The nested column codes: 01, "Field and column". A column is a number below 2^30, position 0 its top bit.
// The laws hold for every family of nested codes (specs/Shape.antt); `remainder` and `systematic` serve every size, the rest is the short page's instance.
#![tactic(auto)]

pub mod masks;

ghost use Rattle.std.specs.Prelude.{◌≡◌, [], ◌∷◌, ◌+◌, ◌*◌, ◌%◌, ◌^◌, ◌<◌, ◌≤◌};
ghost use Rattle.poly.specs.Polynomial.{scale, remainder as remainder_of, Degree};
ghost use Rattle.column.specs.Shape.{short, generator as generator_of, degree};
ghost use Rattle.column.specs.Level.{level_word, column_of, reimaged, is_word};

// p where the digit q is 1, else 0: a product, not a choice as in `field` and `syndromes`, since a branch on a digit is mispredicted half of the time
fn pick(p: u64, q: u64) -> u64
    requires { q < 2 }
    ensures { result ≡ scale (q % 2) p }
{
    p * q
}

// The remainder of w by g, of degree d, where w has at most k bits more than that.
pub fn remainder(w: u64, k: usize, d: usize, g: u64) -> u64
    requires k_bound { d + k ≤ 63 }
    requires w_bound { w < 2 ^ (d + k) }
    requires degree { Degree d g }
    ensures { result ≡ remainder_of d g w }
{
    let mut r = w;
    for i in (0..k).rev() {
        r ^= pick(g << i, r >> (d + i));
    }
    r
}

// A symbol of at most k bits, then its remainder bits: the systematic word.
pub fn systematic(symbol: u64, k: usize, d: usize, g: u64) -> u64
    requires k_bound { d + k ≤ 63 }
    requires symbol_bound { symbol < 2 ^ k }
    requires degree { Degree d g }
    ensures { result ≡ symbol * 2 ^ d + remainder_of d g (symbol * 2 ^ d) }
{
    let v = symbol << d;
    v + remainder(v, k, d, g)
}

// The generators of the levels: f1, f1·f3, f1·f3·f5, f1·f3·f5·f7.
const GENERATORS: [u64; 4] = [67, 5433, 492239, 31139703];

// the generator of a level
pub fn generator(level: usize) -> u64
    requires { level < 4 }
    ensures { result ≡ generator_of short level }
{
    GENERATORS[level]
}

// the degree of a level's generator: six bits for each level up to it
pub fn degree_of(level: usize) -> usize
    requires { level < 4 }
    ensures { result ≡ degree short level }
{
    6 * (level + 1)
}

// The level word of a symbol.
pub fn level_word(level: usize, symbol: u64) -> u64
    requires level_bound { level < 4 }
    requires symbol_bound { symbol < 64 }
    ensures { result ≡ level_word short level symbol }
{
    systematic(symbol, 6, degree_of(level), generator(level))
}

// The column of four symbols, level 0's first.
pub fn encode(s0: u64, s1: u64, s2: u64, s3: u64) -> u64
    requires { (s0 < 64) × (s1 < 64) × (s2 < 64) × (s3 < 64) }
    ensures { result ≡ column_of short (s0 ∷ s1 ∷ s2 ∷ s3 ∷ []) }
{
    level_word(3, s3) ^ level_word(2, s2) ^ level_word(1, s1) ^ level_word(0, s0)
}

// Whether a column is a word of a level.
pub fn is_word(level: usize, column: u64) -> bool
    requires level_bound { level < 4 }
    requires column_bound { column < 2 ^ 30 }
    ensures { result ≡ is_word short level column }
{
    let d = degree_of(level);
    remainder(column, 30 - d, d, generator(level)) == 0
}

// Re-imaging: the symbol of a level, after the words of the levels above were taken off, the highest first.
pub fn reimage(level: usize, column: u64) -> u64
    requires level_bound { level < 4 }
    requires column_bound { column < 2 ^ 30 }
    ensures { result ≡ reimaged short level column }
{
    let mut w = column;
    for i in (level + 1..4).rev() {
        w ^= level_word(i, w >> degree_of(i));
    }
    w >> degree_of(level)
}
