// Column searches: 01, "The search", and 02, point 1, list of two.
#![tactic(auto)]

ghost use Rattle.std.specs.Prelude.{true, ◌≡◌};
ghost use Rattle.column.specs.Shape.{short};
ghost use Rattle.trellis.specs.Values.{level_values};
ghost use Rattle.trellis.specs.Demand.{whole, supercode};
ghost use Rattle.trellis.specs.TwoWords.{off, on, threshold_allowed, searched_by};
ghost use Rattle.search.specs.Outcomes.{search_of};
ghost use Rattle.list_of_two.specs.Ways.{choice};
ghost use Rattle.searches.specs.Searches.{Answered, Allowed, search_answer, outcome_answer};

use questions::refusal::Refusal;
use search::Found;
use stack::Stack;

// The search of a column whose questions are all answered yes, over a stack and tables of its own.
fn search_allowed(
    level: u64,
    soft: &[u8],
    limit: u64,
    in_supercodes: bool,
    threshold: Option<i64>,
) -> Result<Found, Refusal>
    requires { Allowed level soft.now limit × (threshold_allowed (choice threshold) ≡ true) }
    ensures { result ≡ outcome_answer (searched_by (choice threshold) (search_of in_supercodes) short (level_values level) limit soft.now level) }
{
    let tables = search::short_page::tables_of(level as usize, in_supercodes);
    let hard = list_of_two::hard::tables_of(level as usize, &tables.values, threshold.is_some());
    let way = list_of_two::way_of(limit, in_supercodes, threshold);
    let mut stack = Stack::new();
    let found = list_of_two::search_by(&mut stack, &tables.trellis(soft), &hard, way);
    searches::as_answer(found)
}

// Either search, with list of two where there is a threshold: the questions in their order, then the search.
fn search_either(
    level: u64,
    soft: &[u8],
    limit: u64,
    in_supercodes: bool,
    threshold: Option<i64>,
) -> Result<Found, Refusal>
    ensures { result ≡ search_answer (choice threshold) (search_of in_supercodes) level soft.now limit }
{
    searches::asked(level, soft, limit, threshold)?;
    search_allowed(level, soft, limit, in_supercodes, threshold)
}

// The whole search of a column: the word, the count and the low point. Refused by 1, 3, 4, 5 and 9.
pub fn search_whole(level: u64, soft: &[u8], limit: u64) -> Result<Found, Refusal>
    ensures { Answered (search_answer off whole level soft.now limit) result }
{
    search_either(level, soft, limit, false, None)
}

// The supercode search of a column: the word, the count and the low point. Refused by 1, 3, 4, 5 and 9.
pub fn search_supercode(level: u64, soft: &[u8], limit: u64) -> Result<Found, Refusal>
    ensures { Answered (search_answer off supercode level soft.now limit) result }
{
    search_either(level, soft, limit, true, None)
}

// The whole search with list of two: a hard reading that is a word, with 0 steps; else the first word, or the second if the first one's sum is below the threshold and the second's larger.
// Refused by 1, 3, 4, 11, 5 and 9.
pub fn search_whole_list(
    level: u64,
    soft: &[u8],
    limit: u64,
    threshold: i64,
) -> Result<Found, Refusal>
    ensures { Answered (search_answer (on threshold) whole level soft.now limit) result }
{
    search_either(level, soft, limit, false, Some(threshold))
}

// The supercode search with list of two. Refused by 1, 3, 4, 11, 5 and 9.
pub fn search_supercode_list(
    level: u64,
    soft: &[u8],
    limit: u64,
    threshold: i64,
) -> Result<Found, Refusal>
    ensures { Answered (search_answer (on threshold) supercode level soft.now limit) result }
{
    search_either(level, soft, limit, true, Some(threshold))
}
