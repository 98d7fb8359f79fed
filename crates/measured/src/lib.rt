// What bench/run measures: the searches of many columns over one stack, as page decoding makes them. No part of the store.
#![tactic(auto)]

pub mod chip_searches;

ghost use Rattle.std.specs.Prelude.{ℕ, ◌/◌, ◌<◌, ◌≤◌, ◌≡◌, is_some, length, get_or};
ghost use Rattle.trellis.specs.Demand.{Search};
ghost use Rattle.trellis.specs.TwoWords.{off, on};
ghost use Rattle.search.specs.Outcomes.{TablesFor};
ghost use Rattle.list_of_two.specs.Hard.{HardFor};
ghost use Rattle.list_of_two.specs.Ways.{choice, choice_of};
ghost use Rattle.measured.specs.Folds.{folded as folded_of, folded_columns, searched_number, named, measured_answer};

use list_of_two::Way;
use list_of_two::hard::HardTables;
use search::Found;
use search::short_page::Tables;
use stack::Stack;

// One search's answer as a number.
fn folded(found: Option<Found>) -> u64
    ensures { result ≡ folded_of found }
{
    match found {
        Some(Found { word, count, low }) => {
            (word << 11) ^ count ^ (packing::sixteen_bits(low) << 48)
        }
        None => 0,
    }
}

// The answers of the columns of a buffer, 30 values each, as one number.
fn search_all(soft: &[u8], tables: &Tables, hard: &HardTables, way: Way) -> u64
    requires limit_bound { way.limit ≤ 2000 }
    requires by_index { (k : ℕ) → k < length soft.now → get_or soft.now k 0 ≤ 7 }
    requires by_index_2 { (s : Search) × (i : ℕ) × (i < 4) × TablesFor s i tables.now.left tables.now.right tables.now.values
        × HardFor (is_some way.threshold) i tables.now.values hard.now.checks hard.now.agreeing }
    ensures { (s : Search) (i : ℕ) → i < 4 → TablesFor s i tables.now.left tables.now.right tables.now.values
        → HardFor (is_some way.threshold) i tables.now.values hard.now.checks hard.now.agreeing
        → result ≡ folded_columns (searched_number (choice_of way) s i way.limit) soft.now (length soft.now / 30) }
{
    let mut stack = Stack::new();
    let mut fold: u64 = 0;
    for j in 0..soft.len() / 30 {
        let column = &soft[j * 30..j * 30 + 30];
        let found = list_of_two::search_by(&mut stack, &tables.trellis(column), hard, way);
        fold ^= folded(found);
    }
    fold
}

// The searches of a level with a limit: the whole search, or the supercode search where `supercode` is not 0, with list of two where a threshold is given; 0 where a question of the store would refuse.
fn measured_by(level: u64, soft: &[u8], limit: u64, supercode: u64, threshold: Option<i64>) -> u64
    ensures { result ≡ measured_answer (choice threshold) (named supercode) level soft.now limit }
{
    if 4 <= level
        || 2000 < limit
        || !list_of_two::threshold_allowed(threshold)
        || questions::first_above(soft, 7) < soft.len()
    {
        return 0;
    }
    let level = level as usize;
    let tables = search::short_page::tables_of(level, supercode != 0);
    let hard = list_of_two::hard::tables_of(level, &tables.values, threshold.is_some());
    let way = list_of_two::way_of(limit, supercode != 0, threshold);
    search_all(soft, &tables, &hard, way)
}

#[unsafe(no_mangle)]
pub extern "C" fn measured_searches(level: u64, soft: &[u8], limit: u64, supercode: u64) -> u64
    ensures { result ≡ measured_answer off (named supercode) level soft.now limit }
{
    measured_by(level, soft, limit, supercode, None)
}

#[unsafe(no_mangle)]
pub extern "C" fn measured_list_searches(
    level: u64,
    soft: &[u8],
    limit: u64,
    supercode: u64,
    threshold: i64,
) -> u64
    ensures { result ≡ measured_answer (on threshold) (named supercode) level soft.now limit }
{
    measured_by(level, soft, limit, supercode, Some(threshold))
}
