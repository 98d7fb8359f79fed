// The outer code of the short page: 01, "Rows and page". A row is a Reed-Solomon word of 63 symbols over the field of 64 elements.
// The answers are defined in reedsolomon's specs/Row.antt; the theory there holds for every field of characteristic 2.
#![tactic(auto)]

ghost use Rattle.std.specs.Prelude.{◌≡◌, ◌+◌, ◌≤◌, ◌<◌, length};
ghost use Rattle.reedsolomon.specs.Row.{Symbols, is_codeword, outer_answer, encoded_row, RowDecoded};
ghost use Rattle.reedsolomon.specs.ShortRows.{short_roots, RowRoots};

use correction::Row;
use locator::erasure;
use syndromes::{encoder, lists, syndrome};

// 01: "T = 30, 12, 6, 4".
const ROOTS: [usize; 4] = [30, 12, 6, 4];

// The number of roots of a level's row.
pub fn roots(level: usize) -> usize
    requires { level < 4 }
    ensures { (result ≡ short_roots level) × (result ≤ 30) }
{
    ROOTS[level]
}

// The codeword that has the data in front.
pub fn encode(data: &[u8], t: usize, out: &mut [u8])
    requires { RowRoots t × (length «data».now + t ≡ 63) × Symbols 6 «data».now × (length out.old ≡ 63) }
    ensures { out.new ≡ encoded_row 6 67 63 t «data».now }
{
    let r = encoder::remainder(data, t);
    let n = data.len();
    lists::put(data, n, 0, out);
    lists::put(&r, t, n, out);
}

// Whether 63 symbols are a codeword: all syndromes are 0.
pub fn is_codeword(symbols: &[u8], t: usize) -> bool
    requires { (length symbols.now ≡ 63) × Symbols 6 symbols.now × (t ≤ 30) }
    ensures { result ≡ is_codeword 6 67 63 t symbols.now }
{
    let mut w = [0u8; 64];
    lists::put(symbols, 63, 0, &mut w);
    let s = syndrome::syndromes(&w, t);
    lists::all_zero(&s, t)
}

// Writes the codeword in reach of the symbols, and tells whether there is one; where there is none, nothing is written.
pub fn decode(symbols: &[u8], marks: &[u8], t: usize, out: &mut [u8]) -> bool
    requires { (length symbols.now ≡ 63) × (length marks.now ≡ 63) × (length out.old ≡ 63) × Symbols 6 symbols.now × (t ≤ 30) }
    ensures { RowDecoded (outer_answer 6 67 63 t symbols.now marks.now) result out.old out.new }
{
    let n = erasure::number(marks);
    if t < n {
        return false;
    }
    let mut w = [0u8; 64];
    lists::put(symbols, 63, 0, &mut w);
    let s = syndrome::syndromes(&w, t);
    if lists::all_zero(&s, t) {
        lists::put(&w, 63, 0, out);
        return true;
    }
    let Row { symbols, syndromes } = correction::corrected(w, marks, s, t, n);
    if lists::all_zero(&syndromes, t) {
        let e = correction::wrong(&w, &symbols, marks);
        if 2 * e + n <= t {
            lists::put(&symbols, 63, 0, out);
            return true;
        }
    }
    false
}
