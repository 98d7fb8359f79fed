// Column calls: 01, "Field and column".
#![tactic(auto)]

ghost use Rattle.questions.specs.Answer.{Answered};
ghost use Rattle.store_columns.specs.Columns.{encode_answer, level_word_answer, reimage_answer};

use questions::refusal::{Question, Refusal};

// The column of four symbols, level 0's first. Refused by 1 and 5.
pub fn encode_column(symbols: &[u8]) -> Result<u64, Refusal>
    ensures { Answered (encode_answer symbols.now) result }
{
    questions::ask(symbols.len() == 4, Question::InputLength, 0)?;
    questions::in_range(symbols, 63)?;
    Ok(column::encode(
        u64::from(symbols[0]),
        u64::from(symbols[1]),
        u64::from(symbols[2]),
        u64::from(symbols[3]),
    ))
}

// The level word of a symbol. Refused by 3 and 5.
pub fn level_word(level: u64, symbol: u64) -> Result<u64, Refusal>
    ensures { Answered (level_word_answer level symbol) result }
{
    questions::ask(level < 4, Question::Level, 0)?;
    questions::ask(symbol < 64, Question::Range, 0)?;
    Ok(column::level_word(level as usize, symbol))
}

// The symbol that a word of a level carries there. Refused by 3, 5 and 6.
pub fn reimage(level: u64, column: u64) -> Result<u64, Refusal>
    ensures { Answered (reimage_answer level column) result }
{
    questions::ask(level < 4, Question::Level, 0)?;
    questions::ask(column < 1073741824, Question::Range, 0)?;
    let i = level as usize;
    questions::ask(column::is_word(i, column), Question::Word, 0)?;
    Ok(column::reimage(i, column))
}
