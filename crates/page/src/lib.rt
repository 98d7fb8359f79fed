// Pages: 01, "Rows and page". A page is written from 150 bytes of data (`encode_page`), and a soft page is decoded to them (`decode_page`): its corrected symbols are asked for (`ask_page`)
// and packed (`pack`). Both are made of what any reader of columns allows (`decode_by`, `ask_by`). Symbols from elsewhere are judged first (`lowest_no_word`).
// What they give is defined in concatenated's specs/Written.antt and specs/Decode.antt, and in specs/Outcomes.antt.
#![tactic(auto)]

ghost use Rattle.std.specs.Prelude.{List, ◌≡◌, ℕ, ◌<◌, ◌≤◌, ◌||◌, length};
ghost use Rattle.column.specs.Shape.{short};
ghost use Rattle.concatenated.specs.Format.{short_page};
ghost use Rattle.concatenated.specs.SoftPage.{Soft, soft_columns};
ghost use Rattle.concatenated.specs.Decode.{Reader, decoded};
ghost use Rattle.concatenated.specs.Chip.{some_below};
ghost use Rattle.concatenated.specs.Written.{written_page, written_rows, bytes_of_rows};
ghost use Rattle.concatenated.specs.Symbols.{rows_in, lowest_no_word};
ghost use Rattle.readings.specs.Steps.{way_reader};
ghost use Rattle.levels.specs.Levels.{ColumnsDone};
ghost use Rattle.concatenated.specs.OuterCode.{short_outer, short_encoder, is_short_codeword};
ghost use Rattle.reedsolomon.specs.Search.{WordOf};
ghost use Rattle.page.specs.Outcomes.{report, outcome_of, data_buffer, filled, symbol_buffer};

use coding::{data, writing};
use levels::Levels;
use list_of_two::Way;
use questions::refusal::Refusal;
use readings::{ColumnReader, Totals};
use softpage::{look, sets};
use stack::Stack;

// What page decoding reports: the steps; of each level how many columns its row changed and how many were erased, and which: marks, column j at bit j; and the lowest low point of the unerased columns.
#[derive(Clone, Debug, PartialEq, Eq, Drop)]
pub struct Report {
    pub steps: u64,
    pub changed: [u8; 4],
    pub erased: [u8; 4],
    pub changed_marks: [u64; 4],
    pub erased_marks: [u64; 4],
    pub low: i16,
}

impl Report {
    // The report of an outcome: of a refusal no steps, no columns, and 0 for the low point.
    pub fn of(outcome: Result<Report, Refusal>) -> Report
        ensures { result ≡ report outcome }
    {
        match outcome {
            Ok(report) => report,
            Err(_) => Report {
                steps: 0,
                changed: [0; 4],
                erased: [0; 4],
                changed_marks: [0; 4],
                erased_marks: [0; 4],
                low: 0,
            },
        }
    }
}

// The rows of the data: each is the codeword with its part of the data in front.
fn encode_rows(data: &[u8], rows: &mut [[u8; 63]; 4])
    requires { length «data».now ≡ 150 }
    ensures { rows.new ≡ written_rows short_page short_encoder «data».now }
{
    let mut symbols = [0u8; 200];
    data::symbols_of(data, &mut symbols);
    let mut at = 0;
    for level in 0..4 {
        let t = outer::roots(level);
        let end = at + (63 - t);
        let mut row = [0u8; 63];
        outer::encode(&symbols[at..end], t, &mut row);
        rows[level] = row;
        at = end;
    }
}

// The written page of the data.
pub fn encode_page(data: &[u8], out: &mut [u8])
    requires { (length «data».now ≡ 150) × (length out.old ≡ 252) }
    ensures { out.new ≡ written_page short_page short_encoder «data».now }
{
    let mut rows = [[0u8; 63]; 4];
    encode_rows(data, &mut rows);
    writing::write_columns(&rows, out);
}

// What the levels of a page leave, told as its outcome: the report, and the corrected symbols, row after row; they are written only if there is an answer.
pub fn told(
    outcome: Result<Totals, Refusal>,
    held: &Levels,
    symbols: &mut [u8],
) -> Result<Report, Refusal>
    requires symbols_len { length symbols.old ≡ 252 }
    requires by_index { (read : Reader) × (page : List (List ℕ)) × ColumnsDone read page outcome held.now }
    ensures { (read : Reader) (page : List (List ℕ)) → ColumnsDone read page outcome held.now
        → (result ≡ outcome_of (decoded short short_outer read page)) × (symbols.new ≡ filled symbol_buffer symbols.old (decoded short short_outer read page)) }
{
    let totals = outcome?;
    data::row_after_row(&held.rows, symbols);
    let changed = held.changed;
    let erased = held.erased;
    Ok(Report {
        steps: totals.steps,
        changed: sets::totals(&changed),
        erased: sets::totals(&erased),
        changed_marks: changed,
        erased_marks: erased,
        low: totals.low,
    })
}

// The outcome of a soft page, its columns read by the reader, and its corrected symbols, row after row; they are written last, and only if there is an answer. What is noted of the searches is in the scratch.
pub fn ask_by<R: ColumnReader>(
    soft: &[u8],
    reader: &R,
    scratch: &mut R::Scratch,
    symbols: &mut [u8],
) -> Result<Report, Refusal>
    requires { (length soft.now ≡ 1890) × Soft soft.now × (R.limit reader.now ≤ 2000) × (length symbols.old ≡ 252) }
    ensures value { result ≡ outcome_of (decoded short short_outer (R.reader reader.now) (soft_columns short_page soft.now)) }
    ensures symbols_after { symbols.new ≡ filled symbol_buffer symbols.old (decoded short short_outer (R.reader reader.now) (soft_columns short_page soft.now)) }
    ensures noted_value { R.noted scratch.new
        ≡ (R.noted scratch.old || some_below short short_outer (R.reader reader.now) (soft_columns short_page soft.now) (R.test reader.now) 4) }
{
    let mut work = [[0u8; 30]; 63];
    look::load(soft, &mut work);
    let mut held = Levels::new();
    let outcome = levels::decode_columns(&mut work, reader, scratch, &mut held);
    told(outcome, &held, symbols)
}

// The outcome of a soft page, its columns searched in the given way, and its corrected symbols, as `ask_by` gives them.
pub fn ask_page(soft: &[u8], way: Way, symbols: &mut [u8]) -> Result<Report, Refusal>
    requires { (length soft.now ≡ 1890) × Soft soft.now × (way.limit ≤ 2000) × (length symbols.old ≡ 252) }
    ensures value { result ≡ outcome_of (decoded short short_outer (way_reader way) (soft_columns short_page soft.now)) }
    ensures symbols_after { symbols.new ≡ filled symbol_buffer symbols.old (decoded short short_outer (way_reader way) (soft_columns short_page soft.now)) }
{
    let mut stack = Stack::new();
    ask_by(soft, &way, &mut stack, symbols)
}

// The lowest level whose row in the symbols is no word of its outer code; 4 where each is one.
pub fn lowest_no_word(symbols: &[u8]) -> usize
    requires { WordOf 64 252 symbols.now }
    ensures { result ≡ lowest_no_word is_short_codeword 0 (rows_in short_page symbols.now) }
{
    for level in 0..4 {
        let from = level * 63;
        if !outer::is_codeword(&symbols[from..from + 63], outer::roots(level)) {
            return level;
        }
    }
    4
}

// Packs the data that the rows in the symbols hold.
pub fn pack(symbols: &[u8], data: &mut [u8])
    requires { WordOf 64 252 symbols.now × (length «data».old ≡ 150) }
    ensures { «data».new ≡ bytes_of_rows short_page (rows_in short_page symbols.now) }
{
    let mut fronts = [0u8; 200];
    data::rows_data(symbols, &mut fronts);
    data::bytes_of(&fronts, data);
}

// Asks for the symbols of a soft page by the reader and packs them: the data are written last, and only if there is an answer.
pub fn decode_by<R: ColumnReader>(
    soft: &[u8],
    reader: &R,
    scratch: &mut R::Scratch,
    data: &mut [u8],
) -> Result<Report, Refusal>
    requires { (length soft.now ≡ 1890) × Soft soft.now × (R.limit reader.now ≤ 2000) × (length «data».old ≡ 150) }
    ensures value { result ≡ outcome_of (decoded short short_outer (R.reader reader.now) (soft_columns short_page soft.now)) }
    ensures data_after { «data».new ≡ filled data_buffer «data».old (decoded short short_outer (R.reader reader.now) (soft_columns short_page soft.now)) }
    ensures noted_value { R.noted scratch.new
        ≡ (R.noted scratch.old || some_below short short_outer (R.reader reader.now) (soft_columns short_page soft.now) (R.test reader.now) 4) }
{
    let mut symbols = [0u8; 252];
    let report = ask_by(soft, reader, scratch, &mut symbols)?;
    pack(&symbols, data);
    Ok(report)
}

// The outcome of a soft page, its columns searched in the given way, and its data, as `decode_by` gives them.
pub fn decode_page(soft: &[u8], way: Way, data: &mut [u8]) -> Result<Report, Refusal>
    requires { (length soft.now ≡ 1890) × Soft soft.now × (way.limit ≤ 2000) × (length «data».old ≡ 150) }
    ensures value { result ≡ outcome_of (decoded short short_outer (way_reader way) (soft_columns short_page soft.now)) }
    ensures data_after { «data».new ≡ filled data_buffer «data».old (decoded short short_outer (way_reader way) (soft_columns short_page soft.now)) }
{
    let mut stack = Stack::new();
    decode_by(soft, &way, &mut stack, data)
}
