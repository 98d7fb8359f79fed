// List of two: 02, point 1. A hard reading that is a word is returned unsearched; else the search may go on, from where it stands, to a second word.
//
// The argument. `search::run` goes on past a word as the search of the specification does, on the same stack; so two calls of it are the first and the second search.
// The lowest sum of all paths taken is the low point of the last word taken, as for a first word.
#![tactic(auto)]

pub mod hard;

ghost use Rattle.std.specs.Prelude.{true, ◌≡◌, ℕ, ◌<◌, ◌≤◌, is_some, length, get_or};
ghost use Rattle.column.specs.Shape.{short};
ghost use Rattle.trellis.specs.Values.{Values, level_values};
ghost use Rattle.trellis.specs.Demand.{Search};
ghost use Rattle.trellis.specs.TwoWords.{searched_by, key_search_two, threshold_allowed};
ghost use Rattle.extension.specs.Steps.{TableOf};
ghost use Rattle.extension.specs.Lent.{GivenBy};
ghost use Rattle.search.specs.Outcomes.{outcome_of, code_outcome, TablesFor, Searchable30};
ghost use Rattle.list_of_two.specs.Hard.{ChecksFor, HardFor};
ghost use Rattle.list_of_two.specs.Ways.{choice, choice_of, unsearched_word};

use extension::Trellis;
use hard::HardTables;
use search::{Found, Progress};
use stack::Stack;

// The search of a soft column for a first word and, if its sum is below the threshold, for a second one under the same limit; the stack may hold anything.
// One call of `run` serves both searches: so it stands in the code once, in the loop over the columns of a page.
pub fn search_words(
    stack: &mut Stack,
    trellis: &Trellis,
    threshold: i16,
    limit: u64,
) -> Option<Found>
    requires limit_bound { limit ≤ 2000 }
    requires given { GivenBy trellis.now }
    ensures { (vs : Values) → TableOf vs trellis.now.values.now
        → result ≡ outcome_of (key_search_two trellis.now.n vs trellis.now.col.now trellis.now.left.now trellis.now.right.now threshold limit) }
{
    stack.clear();
    // the first word, when it is taken
    let mut first = Progress::START;
    loop {
        let end = search::run(stack, trellis, first, limit);
        if first.last.len == trellis.n {
            if end.last.len != trellis.n {
                return Some(Found {
                    count: limit,
                    ..first.found()
                });
            }
            // with no step left the last path taken is still the first word, whose sum is not above its own
            if first.last.sum < end.last.sum {
                return Some(end.found());
            }
            return Some(Found {
                count: end.count,
                ..first.found()
            });
        }
        if end.last.len != trellis.n {
            return None;
        }
        if end.last.sum < threshold {
            first = end;
        } else {
            return Some(end.found());
        }
    }
}

// How a column is searched: the limit, the search, and with list of two the sum of the first word below which a second one is sought.
#[derive(Clone, Copy)]
pub struct Way {
    pub limit: u64,
    pub in_supercodes: bool,
    pub threshold: Option<i16>,
}

// Whether a call may be given the threshold; without list of two there is none to ask about.
pub fn threshold_allowed(threshold: Option<i64>) -> bool
    ensures { result ≡ threshold_allowed (choice threshold) }
{
    match threshold {
        Some(sum) => -2000 <= sum && sum <= 2000,
        None => true,
    }
}

// The way that a call's limit, flag and threshold name.
pub fn way_of(limit: u64, in_supercodes: bool, threshold: Option<i64>) -> Way
    requires { threshold_allowed (choice threshold) ≡ true }
    ensures { (result.limit ≡ limit) × (result.in_supercodes ≡ in_supercodes) × (result.threshold ≡ threshold) }
{
    Way {
        limit,
        in_supercodes,
        threshold: threshold.map(|sum| sum as i16),
    }
}

// The hard reading of a soft column, if list of two is on and it is a word of the level: it is returned unsearched.
#[tactic(auto, using(crate::proofs::ShortTwo::is_unsearched, crate::proofs::ShortTwo::is_searched))]
fn unsearched_word(soft: &[u8], hard: &HardTables, way: Way) -> Option<u64>
    requires soft_len { length soft.now ≡ 30 }
    requires by_index { (k : ℕ) → k < 30 → get_or soft.now k 0 < 8 }
    requires by_index_2 { (i : ℕ) × (i < 4) × (is_some way.threshold ≡ true → ChecksFor i hard.now.checks) }
    ensures { (i : ℕ) → i < 4 → (is_some way.threshold ≡ true → ChecksFor i hard.now.checks) → result ≡ unsearched_word (choice_of way) i soft.now }
{
    if way.threshold.is_none() {
        return None;
    }
    let read = hard.checked_reading(soft);
    if read < 1073741824 { Some(read) } else { None }
}

// The search of a soft column of the short page in a given way, by the tables that are lent; the stack may hold anything.
// Without list of two the threshold is the lowest number of 16 bits, which no sum is below.
pub fn search_by(stack: &mut Stack, trellis: &Trellis, hard: &HardTables, way: Way) -> Option<Found>
    requires limit_bound { way.limit ≤ 2000 }
    requires length { trellis.now.n ≡ 30 }
    requires searchable30 { Searchable30 trellis.now.col.now trellis.now.left.now trellis.now.right.now trellis.now.values.now }
    requires by_index { (i : ℕ) × (i < 4) × HardFor (is_some way.threshold) i trellis.now.values.now hard.now.checks hard.now.agreeing }
    ensures { (s : Search) (i : ℕ) → i < 4 → TablesFor s i trellis.now.left.now trellis.now.right.now trellis.now.values.now
        → HardFor (is_some way.threshold) i trellis.now.values.now hard.now.checks hard.now.agreeing
        → result ≡ code_outcome (searched_by (choice_of way) s short (level_values i) way.limit trellis.now.col.now i) }
{
    match unsearched_word(trellis.col, hard, way) {
        Some(word) => Some(Found {
            word,
            count: 0,
            low: hard.low_of_reading(trellis.col),
        }),
        None => search_words(stack, trellis, way.threshold.unwrap_or(i16::MIN), way.limit),
    }
}
