// The chip model: 02, point 5. The calls answer as a chip does whose stack has 64 places; their answers say whether any path was pushed out of it.
#![tactic(auto)]

ghost use Rattle.std.specs.Prelude.{◌≡◌};
ghost use Rattle.concatenated.specs.Chip.{chip_column};
ghost use Rattle.searches.specs.Searches.{Allowed};
ghost use Rattle.store_chip.specs.Chip.{unfound, as_answer, column_answer, chip_answer, ChipDecoded};

use chip::{ChipOutcome, ChipStack};
use chip_pages::ChipPage;
use questions::refusal::{Question, Refusal};
use search::Found;

// What the search of a column answers: the word, the count and its low point, or a refusal; how many paths were taken, of a 9 and a 13 too; and whether any path was pushed out.
// Any other refusal has taken no path and pushed none out.
#[derive(Drop)]
pub struct ChipAnswer {
    pub found: Result<Found, Refusal>,
    pub count: u64,
    pub pushed: bool,
}

// The question that a search without a word is refused by: 9 where the limit was taken, else 13.
fn unfound(limit: u64, count: u64) -> Question
    ensures { result ≡ unfound limit count }
{
    if count < limit {
        Question::EmptyStack
    } else {
        Question::Spent
    }
}

// The outcome of a search as its answer.
fn as_answer(ended: ChipOutcome, limit: u64) -> ChipAnswer
    ensures { result ≡ as_answer limit ended }
{
    let refusal = Refusal {
        question: unfound(limit, ended.count),
        place: 0,
    };
    ChipAnswer {
        found: ended.found.ok_or(refusal),
        count: ended.count,
        pushed: ended.pushed,
    }
}

// The search of a column whose questions are all answered yes, over a stack and tables of its own.
fn search_allowed(soft: &[u8], level: u64, limit: u64) -> ChipAnswer
    requires { Allowed level soft.now limit }
    ensures { result ≡ column_answer limit (chip_column limit level soft.now) }
{
    let tables = search::short_page::tables_of(level as usize, true);
    let mut stack = ChipStack::new();
    let ended = chip::short_page::search_column(&mut stack, &tables.trellis(soft), limit);
    as_answer(ended, limit)
}

// The supercode search of a column with 64 places on the stack: a 65th path pushes out the one placed last. Refused by 1, 3, 4, 5, 9 and 13: the stack is empty.
pub fn search_chip(soft: &[u8], level: u64, limit: u64) -> ChipAnswer
    ensures { result ≡ chip_answer soft.now level limit }
{
    match searches::asked(level, soft, limit, None) {
        Ok(()) => search_allowed(soft, level, limit),
        Err(refusal) => ChipAnswer {
            found: Err(refusal),
            count: 0,
            pushed: false,
        },
    }
}

// The data of a soft page, each column searched with 64 places; a 13 is an erasure that counts the steps taken. Refused by 1, 2, 4, 5 and 10, whose place is the level; `data` is then as it was.
pub fn decode_page_chip(soft: &[u8], limit: u64, data: &mut [u8]) -> ChipPage
    ensures { ChipDecoded soft.now limit «data».old result «data».new }
{
    match store_pages::page_questions(soft, limit, None, data.len() == 150) {
        Ok(()) => chip_pages::decode_page(soft, limit, data),
        Err(refusal) => ChipPage {
            page: Err(refusal),
            pushed: false,
        },
    }
}
