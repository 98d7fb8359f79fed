// What bench/run measures of the chip model: the searches of many columns with 64 places, over one stack and one set of tables.
ghost use Rattle.std.specs.Prelude.{ℕ, ◌/◌, ◌<◌, ◌≤◌, ◌≡◌, length, get_or};
ghost use Rattle.measured.specs.Folds.{chip_folded, folded_columns, chip_number, measured_chip_answer};

use chip::{ChipOutcome, ChipStack};

// One search's answer as a number.
fn chip_folded(ended: ChipOutcome) -> u64
    ensures { result ≡ chip_folded ended }
{
    let pushed = u64::from(ended.pushed);
    match ended.found {
        Some(_) => crate::folded(ended.found) ^ (pushed << 47),
        None => (ended.count << 1) ^ pushed ^ (1 << 46),
    }
}

// The answers of the columns of a buffer, 30 values each, as one number.
fn search_all(soft: &[u8], level: u64, limit: u64) -> u64
    requires level_bound { level < 4 }
    requires by_index { (k : ℕ) → k < length soft.now → get_or soft.now k 0 ≤ 7 }
    ensures { result ≡ folded_columns (chip_number level limit) soft.now (length soft.now / 30) }
{
    let tables = search::short_page::tables_of(level as usize, true);
    let mut stack = ChipStack::new();
    let mut fold: u64 = 0;
    for j in 0..soft.len() / 30 {
        let column = &soft[j * 30..j * 30 + 30];
        let ended = chip::short_page::search_column(&mut stack, &tables.trellis(column), limit);
        fold ^= chip_folded(ended);
    }
    fold
}

// The searches of a level with a limit; 0 where a question of the store would refuse.
#[unsafe(no_mangle)]
pub extern "C" fn measured_chip_searches(level: u64, soft: &[u8], limit: u64) -> u64
    ensures { result ≡ measured_chip_answer level soft.now limit }
{
    if 4 <= level || 2000 < limit || questions::first_above(soft, 7) < soft.len() {
        return 0;
    }
    search_all(soft, level, limit)
}
