// The questions and the answer of a column search: what the single calls (crates/store_searches), the jobs of a batch (crates/store_batches) and the first call of a held search (crates/store_held) share.
// And the supercode search over a stack and masks that are lent, for those who search many columns: a batch and the census of flips (crates/census).
#![tactic(auto)]

ghost use Rattle.std.specs.Prelude.{◌≡◌};
ghost use Rattle.column.specs.Shape.{short};
ghost use Rattle.trellis.specs.Values.{level_values};
ghost use Rattle.trellis.specs.Demand.{supercode};
ghost use Rattle.trellis.specs.TwoWords.{off, searched_by};
ghost use Rattle.search.specs.Outcomes.{SupercodesBelow};
ghost use Rattle.list_of_two.specs.Ways.{choice};
ghost use Rattle.questions.specs.Answer.{refused, done};
ghost use Rattle.searches.specs.Searches.{Allowed, ask_search, outcome_answer, as_answer};

use extension::Trellis;
use list_of_two::hard::HardTables;
use questions::refusal::{Question, Refusal};
use search::Found;
use stack::Stack;

// The questions of a column search before 9, in their order; 11 with list of two, where there is a threshold.
pub fn asked(level: u64, soft: &[u8], limit: u64, threshold: Option<i64>) -> Result<(), Refusal>
    ensures { result ≡ ask_search (choice threshold) level soft.now limit refused done }
{
    questions::ask(soft.len() == 30, Question::InputLength, 0)?;
    questions::ask(level < 4, Question::Level, 0)?;
    questions::ask(1 <= limit, Question::Limit, 0)?;
    questions::ask(limit <= 2000, Question::Limit, 0)?;
    let allowed = list_of_two::threshold_allowed(threshold);
    questions::ask(allowed, Question::Threshold, 0)?;
    questions::in_range(soft, 7)
}

// The outcome of a search as its answer: 9 where it is spent.
pub fn as_answer(found: Option<Found>) -> Result<Found, Refusal>
    ensures { result ≡ as_answer found }
{
    found.ok_or(Refusal {
        question: Question::Spent,
        place: 0,
    })
}

// The supercode search of a column whose questions are all answered yes, over a stack and masks that are lent; the stack may hold anything.
pub fn search_supercodes(
    stack: &mut Stack,
    masks: &[[u64; 30]; 8],
    column: &[u8],
    level: usize,
    limit: u64,
) -> Result<Found, Refusal>
    requires { SupercodesBelow 4 masks.now × Allowed level column.now limit }
    ensures { result ≡ outcome_answer (searched_by off supercode short (level_values level) limit column.now level) }
{
    let values = search::short_page::level_values(level);
    let trellis = Trellis {
        n: 30,
        col: column,
        left: &masks[level],
        right: &masks[level + 4],
        values: &values,
    };
    let way = list_of_two::way_of(limit, true, None);
    // without list of two no hard reading is made, and these are not read
    let hard = HardTables {
        checks: [0; 30],
        agreeing: [0; 8],
    };
    as_answer(list_of_two::search_by(stack, &trellis, &hard, way))
}
