// Page calls: 01, "Rows and page", and 02: point 1, list of two; point 7, asking and committing.
#![tactic(auto)]

ghost use Rattle.std.specs.Prelude.{◌≡◌, ◌*◌, ◌<◌, length};
ghost use Rattle.trellis.specs.Demand.{whole, supercode};
ghost use Rattle.concatenated.specs.Format.{short_page};
ghost use Rattle.concatenated.specs.SoftPage.{column_part};
ghost use Rattle.concatenated.specs.Places.{placed_at};
ghost use Rattle.concatenated.specs.Written.{written_page};
ghost use Rattle.concatenated.specs.OuterCode.{short_encoder};
ghost use Rattle.search.specs.Outcomes.{search_of};
ghost use Rattle.page.specs.Outcomes.{data_buffer, symbol_buffer};
ghost use Rattle.list_of_two.specs.Ways.{choice};
ghost use Rattle.questions.specs.Answer.{Filled, refused, done};
ghost use Rattle.store_pages.specs.Pages.{encode_page_answer, ask_page, PageFilled, PageDecoded, PageAsked, ListDecoded, ListAsked};
ghost use Rattle.store_pages.specs.Committing.{Committed};

use page::Report;
use questions::refusal::{Question, Refusal};

// The limit of every call that names none: `default_limit` of specs/Pages.antt.
pub const DEFAULT_LIMIT: u64 = 200;

// The written page of 150 bytes of data. Refused by 1 and 2; `out` is then as it was.
pub fn encode_page(data: &[u8], out: &mut [u8]) -> Result<(), Refusal>
    ensures { Filled (encode_page_answer «data».now out.old) (written_page short_page short_encoder «data».now) out.old result out.new }
{
    questions::ask(data.len() == 150, Question::InputLength, 0)?;
    questions::ask(out.len() == 252, Question::OutputLength, 0)?;
    page::encode_page(data, out);
    Ok(())
}

// The questions of page decoding and of asking, in their order; `room` tells whether the output has its places.
pub fn page_questions(
    soft: &[u8],
    limit: u64,
    threshold: Option<i64>,
    room: bool,
) -> Result<(), Refusal>
    ensures { result ≡ ask_page (choice threshold) soft.now limit room refused done }
{
    questions::ask(soft.len() == 1890, Question::InputLength, 0)?;
    questions::ask(room, Question::OutputLength, 0)?;
    questions::ask(1 <= limit, Question::Limit, 0)?;
    questions::ask(limit <= 2000, Question::Limit, 0)?;
    let in_range = list_of_two::threshold_allowed(threshold);
    questions::ask(in_range, Question::Threshold, 0)?;
    questions::in_range(soft, 7)
}

// Either page decoder, with list of two where there is a threshold: the questions, then page decoding by the search that the flag names.
fn decode_either(
    soft: &[u8],
    limit: u64,
    in_supercodes: bool,
    threshold: Option<i64>,
    data: &mut [u8],
) -> Result<Report, Refusal>
    ensures { PageFilled data_buffer (choice threshold) (search_of in_supercodes) soft.now limit «data».old result «data».new }
{
    page_questions(soft, limit, threshold, data.len() == 150)?;
    let way = list_of_two::way_of(limit, in_supercodes, threshold);
    page::decode_page(soft, way, data)
}

// The data of a soft page, by the supercode search of every column with the given limit. Refused by 1, 2, 4, 5 and 10, whose place is the level; `data` is then as it was.
pub fn decode_page(soft: &[u8], limit: u64, data: &mut [u8]) -> Result<Report, Refusal>
    ensures { PageDecoded supercode soft.now limit «data».old result «data».new }
{
    decode_either(soft, limit, true, None, data)
}

// The same by the whole search of every column.
pub fn decode_page_whole(soft: &[u8], limit: u64, data: &mut [u8]) -> Result<Report, Refusal>
    ensures { PageDecoded whole soft.now limit «data».old result «data».new }
{
    decode_either(soft, limit, false, None, data)
}

// Asking, by either search, with list of two where there is a threshold: the questions, then the corrected symbols.
fn ask_either(
    soft: &[u8],
    limit: u64,
    in_supercodes: bool,
    threshold: Option<i64>,
    symbols: &mut [u8],
) -> Result<Report, Refusal>
    ensures { PageFilled symbol_buffer (choice threshold) (search_of in_supercodes) soft.now limit symbols.old result symbols.new }
{
    page_questions(soft, limit, threshold, symbols.len() == 252)?;
    let way = list_of_two::way_of(limit, in_supercodes, threshold);
    page::ask_page(soft, way, symbols)
}

// Asks what decoding a soft page would give, by the supercode search: its report or refusal, and the 252 corrected symbols, row after row. Refused by 1, 2, 4, 5 and 10; `symbols` is then as it was.
pub fn ask_page(soft: &[u8], limit: u64, symbols: &mut [u8]) -> Result<Report, Refusal>
    ensures { PageAsked supercode soft.now limit symbols.old result symbols.new }
{
    ask_either(soft, limit, true, None, symbols)
}

// The same by the whole search.
pub fn ask_page_whole(soft: &[u8], limit: u64, symbols: &mut [u8]) -> Result<Report, Refusal>
    ensures { PageAsked whole soft.now limit symbols.old result symbols.new }
{
    ask_either(soft, limit, false, None, symbols)
}

// `decode_page` with list of two: a column whose hard reading is a word is not searched, and below the threshold a second word is sought. Refused by 1, 2, 4, 11, 5 and 10.
pub fn decode_page_list(
    soft: &[u8],
    limit: u64,
    threshold: i64,
    data: &mut [u8],
) -> Result<Report, Refusal>
    ensures { ListDecoded threshold supercode soft.now limit «data».old result «data».new }
{
    decode_either(soft, limit, true, Some(threshold), data)
}

// The same by the whole search.
pub fn decode_page_whole_list(
    soft: &[u8],
    limit: u64,
    threshold: i64,
    data: &mut [u8],
) -> Result<Report, Refusal>
    ensures { ListDecoded threshold whole soft.now limit «data».old result «data».new }
{
    decode_either(soft, limit, false, Some(threshold), data)
}

// `ask_page` with list of two. Refused by 1, 2, 4, 11, 5 and 10.
pub fn ask_page_list(
    soft: &[u8],
    limit: u64,
    threshold: i64,
    symbols: &mut [u8],
) -> Result<Report, Refusal>
    ensures { ListAsked threshold supercode soft.now limit symbols.old result symbols.new }
{
    ask_either(soft, limit, true, Some(threshold), symbols)
}

// The same by the whole search.
pub fn ask_page_whole_list(
    soft: &[u8],
    limit: u64,
    threshold: i64,
    symbols: &mut [u8],
) -> Result<Report, Refusal>
    ensures { ListAsked threshold whole soft.now limit symbols.old result symbols.new }
{
    ask_either(soft, limit, false, Some(threshold), symbols)
}

// Writes the 150 bytes that the rows of 252 symbols hold, whoever filled them. Refused by 1, 2, 5 and 14, whose place is the lowest level whose row is no word of its outer code; `data` is then as it was.
pub fn commit_page(symbols: &[u8], data: &mut [u8]) -> Result<(), Refusal>
    ensures { Committed symbols.now «data».old result «data».new }
{
    questions::ask(symbols.len() == 252, Question::InputLength, 0)?;
    questions::ask(data.len() == 150, Question::OutputLength, 0)?;
    questions::in_range(symbols, 63)?;
    let level = page::lowest_no_word(symbols);
    questions::ask(4 <= level, Question::OuterWord, level as u64)?;
    page::pack(symbols, data);
    Ok(())
}

// The 30 bytes of column j of a soft page, as a part of the page itself; for a column above 62 or a page of another length the part is empty. It gives no number.
pub fn column_of(page: &[u8], j: usize) -> &[u8]
    ensures result_value { result.now ≡ column_part short_page page.now j }
    ensures placed_at { length page.now ≡ 1890 → j < 63 → placed_at result.ref_ptr page.entry.ref_ptr (j * 30) }
{
    softpage::look::column_of(page, j)
}
