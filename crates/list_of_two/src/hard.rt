// The hard reading of a soft column: its word with the remainder by the level's generator, in one pass, and its low point. Each bit adds an entry of a table.
ghost use Rattle.std.specs.Prelude.{ℕ, ◌<◌, ◌≤◌, ◌≡◌, pos, nat_abs, length, get_or};
ghost use Rattle.paths.specs.Low.{low_point};
ghost use Rattle.trellis.specs.Values.{Values};
ghost use Rattle.trellis.specs.Order.{number, sum};
ghost use Rattle.trellis.specs.TwoWords.{hard_path};
ghost use Rattle.list_of_two.specs.Hard.{checked_word, ChecksFor, Agreeing, AgreeingOf, HardFor};

// The words of one bit, position 0 first, each with its remainder by the level's generator above its 30 bits. Made once a level.
pub fn checks_of(level: usize) -> [u64; 30]
    requires { level < 4 }
    ensures { ChecksFor level result }
{
    let d = column::degree_of(level);
    let g = column::generator(level);
    let mut checks = [0; 30];
    let mut x: u64 = 1;
    let mut rest: u64 = 1;
    for k in (0..30).rev() {
        checks[k] = x + 1073741824 * rest;
        x *= 2;
        rest = column::remainder(rest * 2, 1, d, g);
    }
    checks
}

// What each soft value gives to the bit that it reads as, picked from a table of values.
pub fn agreeing_of(values: &[i16; 16]) -> [i16; 8]
    requires { (k : ℕ) → k < 16 → nat_abs (get_or values.now k (pos 0)) ≤ 60 }
    ensures { AgreeingOf values.now result }
{
    let mut agreeing = [0; 8];
    for q in 0..8 {
        agreeing[q] = values[q / 4 * 8 + q];
    }
    agreeing
}

// What the hard reading is tested with, beside the tables of the search.
#[derive(Drop)]
pub struct HardTables {
    pub checks: [u64; 30],
    pub agreeing: [i16; 8],
}

impl HardTables {
    // The hard reading of a soft column with its remainder above its 30 bits: below 2^30 exactly where it is a word of the level, and then the word.
    // A product with the bit, since a branch on it is mispredicted half of the time.
    pub fn checked_reading(&self, soft: &[u8]) -> u64
        requires soft_len { length soft.now ≡ 30 }
        requires by_index { (k : ℕ) → k < 30 → get_or soft.now k 0 < 8 }
        requires by_index_2 { (i : ℕ) × (i < 4) × ChecksFor i self.now.checks }
        ensures { (i : ℕ) → i < 4 → ChecksFor i self.now.checks → result ≡ checked_word i (number (hard_path soft.now 30)) }
    {
        let mut read = 0;
        for k in 0..30 {
            read ^= self.checks[k] * u64::from(soft[k] / 4);
        }
        read
    }

    // The low point of the hard reading of a soft column.
    pub fn low_of_reading(&self, soft: &[u8]) -> i16
        requires soft_len { length soft.now ≡ 30 }
        requires by_index { (k : ℕ) → k < 30 → get_or soft.now k 0 < 8 }
        requires by_index_2 { (q : ℕ) → q < 8 → nat_abs (get_or self.now.agreeing q (pos 0)) ≤ 60 }
        ensures { (vs : Values) → Agreeing vs self.now.agreeing → result ≡ low_point (sum vs soft.now) (hard_path soft.now 30) }
    {
        let mut sum: i16 = 0;
        let mut low = search::NONE_TAKEN;
        for k in 0..30 {
            sum += self.agreeing[usize::from(soft[k])];
            low = low.min(sum);
        }
        low
    }
}

// The tables of a level, if list of two is on. Made once a level and lent to the searches.
pub fn tables_of(level: usize, values: &[i16; 16], second: bool) -> HardTables
    requires level_bound { level < 4 }
    requires by_index { (k : ℕ) → k < 16 → nat_abs (get_or values.now k (pos 0)) ≤ 60 }
    ensures { (length result.checks ≡ 30) × (length result.agreeing ≡ 8) × HardFor second level values.now result.checks result.agreeing }
{
    if !second {
        return HardTables {
            checks: [0; 30],
            agreeing: [0; 8],
        };
    }
    HardTables {
        checks: checks_of(level),
        agreeing: agreeing_of(values),
    }
}
