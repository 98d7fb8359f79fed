// Listings of the paths that a search takes: 02, point 11.
#![tactic(auto)]

ghost use Rattle.std.specs.Prelude.{◌≡◌};
ghost use Rattle.paths.specs.Listings.{judged};
ghost use Rattle.search.specs.Outcomes.{search_of};
ghost use Rattle.checker.specs.Lines.{listing_of};
ghost use Rattle.questions.specs.Answer.{refused, done};
ghost use Rattle.store_listings.specs.Listings.{Answered, Allowed, ask_listing, verdict_answer, named_trellis, listing_answer};

use questions::refusal::{Question, Refusal};
use stack::Stack;

// The questions of the checker in their order.
fn asked(soft: &[u8], level: u64, lengths: &[u64], bits: &[u64]) -> Result<(), Refusal>
    ensures { result ≡ ask_listing level soft.now lengths.now bits.now refused done }
{
    questions::ask(soft.len() == 30, Question::InputLength, 0)?;
    questions::ask(lengths.len() == bits.len(), Question::InputLength, 0)?;
    questions::ask(1 <= lengths.len(), Question::Lines, 0)?;
    questions::ask(lengths.len() <= 2000, Question::Lines, 0)?;
    questions::ask(level < 4, Question::Level, 0)?;
    questions::in_range(soft, 7)
}

// The verdict on a listing whose questions are all answered yes, over a stack and tables of its own.
fn check_allowed(
    soft: &[u8],
    level: u64,
    in_supercodes: bool,
    lengths: &[u64],
    bits: &[u64],
) -> Result<Option<u64>, Refusal>
    requires { Allowed level soft.now lengths.now bits.now }
    ensures { result ≡ verdict_answer (judged (named_trellis (search_of in_supercodes) level soft.now) (listing_of 30 lengths.now bits.now)) }
{
    let tables = search::short_page::tables_of(level as usize, in_supercodes);
    let mut stack = Stack::new();
    let verdict = checker::short_page::judge_column(
        &mut stack,
        &tables.trellis(soft),
        lengths,
        bits,
    );
    Ok(verdict)
}

// Whether a listing is the sequence of paths, from first to answer, that the whole or the supercode search takes on a soft column; if not, its first wrong line. Line k has the length lengths[k − 1]
// and the bits bits[k − 1], last bit lowest. Refused by 1, 15, 3 and 5.
pub fn check_listing(
    soft: &[u8],
    level: u64,
    in_supercodes: bool,
    lengths: &[u64],
    bits: &[u64],
) -> Result<Option<u64>, Refusal>
    ensures { Answered (listing_answer (search_of in_supercodes) level soft.now lengths.now bits.now) result }
{
    asked(soft, level, lengths, bits)?;
    check_allowed(soft, level, in_supercodes, lengths, bits)
}
