// Row calls: 01, "Rows and page".
#![tactic(auto)]

ghost use Rattle.std.specs.Prelude.{◌≡◌};
ghost use Rattle.reedsolomon.specs.Row.{outer_answer, encoded_row, word_of};
ghost use Rattle.reedsolomon.specs.ShortRows.{short_roots};
ghost use Rattle.questions.specs.Answer.{Filled};
ghost use Rattle.store_rows.specs.Rows.{length_right, encode_row_answer, decode_row_answer};

use questions::refusal::{Question, Refusal};

// Whether a row's data have the length stated for their level; for a level above 3 none is stated.
fn length_right(level: u64, n: usize) -> bool
    ensures { result ≡ length_right level n }
{
    4 <= level || n == 63 - outer::roots(level as usize)
}

// The row of 63 symbols with the data in front. Refused by 1, 2, 3 and 5; `out` is then as it was.
pub fn encode_row(level: u64, data: &[u8], out: &mut [u8]) -> Result<(), Refusal>
    ensures { Filled (encode_row_answer level «data».now out.old) (encoded_row 6 67 63 (short_roots level) «data».now) out.old result out.new }
{
    questions::ask(length_right(level, data.len()), Question::InputLength, 0)?;
    questions::ask(out.len() == 63, Question::OutputLength, 0)?;
    questions::ask(level < 4, Question::Level, 0)?;
    questions::in_range(data, 63)?;
    outer::encode(data, outer::roots(level as usize), out);
    Ok(())
}

// The codeword in reach of 63 symbols and 63 marks. Refused by 1, 2, 3, 5 and 10; `out` is then as it was.
pub fn decode_row(level: u64, symbols: &[u8], marks: &[u8], out: &mut [u8]) -> Result<(), Refusal>
    ensures { Filled (decode_row_answer level symbols.now marks.now out.old)
        (word_of out.old (outer_answer 6 67 63 (short_roots level) symbols.now marks.now)) out.old result out.new }
{
    questions::ask(symbols.len() == 63, Question::InputLength, 0)?;
    questions::ask(marks.len() == 63, Question::InputLength, 0)?;
    questions::ask(out.len() == 63, Question::OutputLength, 0)?;
    questions::ask(level < 4, Question::Level, 0)?;
    questions::in_range(symbols, 63)?;
    let mark = questions::first_above(marks, 1);
    questions::ask(63 <= mark, Question::Range, 63 + mark as u64)?;
    let found = outer::decode(symbols, marks, outer::roots(level as usize), out);
    questions::ask(found, Question::Reach, 0)
}
