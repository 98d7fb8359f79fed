// Dump calls: 01, "The dump".
#![tactic(auto)]

ghost use Rattle.std.specs.Prelude.{◌≡◌, ◌<◌, length};
ghost use Rattle.dump.specs.Dump.{dump_of, soft_of};
ghost use Rattle.questions.specs.Answer.{Filled, done};
ghost use Rattle.store_dumps.specs.Dumps.{write_answer, ask_block, read_answer};

use questions::refusal::{Question, Refusal};

// Writes the dump of a soft page of 1,890 values into `out`, of 2,048 bytes. Refused by 1, 2 and 5; `out` is then as it was.
pub fn write_dump(soft: &[u8], out: &mut [u8]) -> Result<(), Refusal>
    ensures { Filled (write_answer soft.now out.old) (dump_of soft.now) out.old result out.new }
{
    questions::ask(soft.len() == 1890, Question::InputLength, 0)?;
    questions::ask(out.len() == 2048, Question::OutputLength, 0)?;
    questions::in_range(soft, 7)?;
    blocks::write(soft, out);
    Ok(())
}

// Questions 7 and 8 of block b.
#[tactic(auto, unfolding(crate::specs::Dumps::ask_fixed, crate::specs::Dumps::ask_check))]
fn ask_block(dump: &[u8], b: usize) -> Result<(), Refusal>
    requires { (length dump.now ≡ 2048) × (b < 4) }
    ensures { result ≡ ask_block dump.now b done }
{
    let block = blocks::block_at(dump, b);
    questions::ask(
        blocks::fixed_right(block, b),
        Question::FixedBytes,
        b as u64,
    )?;
    questions::ask(blocks::check_right(block), Question::Check, b as u64)
}

// Reads the soft page of a dump of 2,048 bytes into `out`, of 1,890 bytes. Refused by 1, 2, 7, 8 and 5; `out` is then as it was.
// Question 5 is asked of a copy of the values, so that `out` is written only after it.
pub fn read_dump(dump: &[u8], out: &mut [u8]) -> Result<(), Refusal>
    ensures { Filled (read_answer dump.now out.old) (soft_of dump.now) out.old result out.new }
{
    questions::ask(dump.len() == 2048, Question::InputLength, 0)?;
    questions::ask(out.len() == 1890, Question::OutputLength, 0)?;
    for b in 0..4 {
        ask_block(dump, b)?;
    }
    let mut values = [0u8; 1890];
    blocks::read(dump, &mut values);
    questions::in_range(&values, 7)?;
    blocks::read(dump, out);
    Ok(())
}
