// Division of the data by the generator. A remainder is at most thirty symbols of six bits: they stand in three words, ten in each, the first lowest.
ghost use Rattle.std.specs.Prelude.{◌≡◌, ◌/◌, ◌%◌, ◌^◌, ◌≤◌, ◌<◌, length, replicate};
ghost use Rattle.poly.specs.Polynomial.{add, scale};
ghost use Rattle.reedsolomon.specs.Row.{Symbols};
ghost use Rattle.reedsolomon.specs.ShortRows.{RowRoots};
ghost use Rattle.reedsolomon.specs.Steps.{Written, IsRemainder};
ghost use Rattle.syndromes.specs.Packed.{symbol_in, number_of, Full, SixWords, multiple_in, multiple_of, IsGenerator, TimesAlpha, Multiples};

// Three words of ten symbols; by name, since each is read with the one behind it: `[u64; 3]` would name them by numbers alone.
#[derive(Drop)]
struct Words {
    low: u64,
    middle: u64,
    high: u64,
}

// The generator of t roots, the highest coefficient, a 1, left out: thirty symbols in three words, the next highest coefficient first.
fn generator(t: usize) -> Words
    requires { RowRoots t }
    ensures { IsGenerator t (number_of result) × Full result }
{
    match t {
        30 => Words {
            low: 170355394578675485,
            middle: 884288516074723732,
            high: 316565068673506203,
        },
        12 => Words {
            low: 52960207597130105,
            middle: 2593,
            high: 0,
        },
        6 => Words {
            low: 64168358781,
            middle: 0,
            high: 0,
        },
        _ => Words {
            low: 12654430,
            middle: 0,
            high: 0,
        },
    }
}

// Ten symbols, each times α: shifted without their top bits, and α + 1 added where a top bit left.
fn times_alpha(w: u64) -> u64
    ensures { TimesAlpha w result }
{
    ((w & 567310581631940575) << 1) ^ (((w >> 5) & 18300341342965825) * 3)
}

// A word times 1, α .. α^5.
fn multiples(w: u64) -> [u64; 6]
    requires { w < 2 ^ 60 }
    ensures { Multiples w result }
{
    let mut r = [w; 6];
    for k in 0..5 {
        r[k + 1] = times_alpha(r[k]);
    }
    r
}

// p where the lowest digit of q is set, else 0; a value that is chosen, so that no branch is left in the machine code
fn pick(p: u64, q: u64) -> u64
    ensures { result ≡ scale (q % 2) p }
{
    if q % 2 == 1 { p } else { 0 }
}

// f times the word that has these multiples
fn multiple(ms: &[u64], f: u64) -> u64
    requires { 6 ≤ length ms.now }
    ensures { result ≡ multiple_in ms.now f }
{
    let mut r: u64 = 0;
    for k in 0..6 {
        r ^= pick(ms[k], f >> k);
    }
    r
}

// The symbols behind the first.
fn shifted(w: Words) -> Words
    requires { Full w }
    ensures { (number_of result ≡ number_of w / 2 ^ 6) × Full result }
{
    Words {
        low: (w.low >> 6) + ((w.middle % 64) << 54),
        middle: (w.middle >> 6) + ((w.high % 64) << 54),
        high: w.high >> 6,
    }
}

// One data symbol u more goes into the remainder w, by the multiples of the generator's three words.
fn register_step(w: Words, low: &[u64], middle: &[u64], high: &[u64], u: u8) -> Words
    requires { Full w × SixWords low.now × SixWords middle.now × SixWords high.now }
    ensures { (number_of result ≡ add (number_of w / 2 ^ 6) (multiple_of low.now middle.now high.now (add u (number_of w % 2 ^ 6)))) × Full result }
{
    let f = u64::from(u) ^ (w.low % 64);
    let s = shifted(w);
    Words {
        low: s.low ^ multiple(low, f),
        middle: s.middle ^ multiple(middle, f),
        high: s.high ^ multiple(high, f),
    }
}

// The first t symbols, and 0 behind them.
fn symbols(words: Words, t: usize) -> [u8; 33]
    requires { Full words × (t ≤ 30) }
    ensures { Written t (symbol_in (number_of words)) (replicate 33 0) result }
{
    let mut w = words;
    let mut r = [0u8; 33];
    for i in 0..t {
        r[i] = (w.low % 64) as u8;
        w = shifted(w);
    }
    r
}

// The remainder of the data, shifted by t, by the generator of t roots.
pub fn remainder(data: &[u8], t: usize) -> [u8; 33]
    requires { RowRoots t × Symbols 6 «data».now }
    ensures { IsRemainder 6 67 t «data».now (length «data».now) result }
{
    let g = generator(t);
    let low = multiples(g.low);
    let middle = multiples(g.middle);
    let high = multiples(g.high);
    let mut w = Words {
        low: 0,
        middle: 0,
        high: 0,
    };
    for &u in data {
        w = register_step(w, &low, &middle, &high, u);
    }
    symbols(w, t)
}
