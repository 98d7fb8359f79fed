// 01, "Questions put to every call": what a call answers, and what question 5 looks for.
#![tactic(auto)]

pub mod refusal;

ghost use Rattle.std.specs.Prelude.{◌≡◌, length, leb};
ghost use Rattle.questions.specs.Questions.{ask, first_above};
ghost use Rattle.questions.specs.Answer.{refused, done};

use refusal::{Question, Refusal};

// A question: where the answer is no, the refusal.
pub fn ask(yes: bool, question: Question, place: u64) -> Result<(), Refusal>
    ensures { result ≡ ask yes (refused question place) done }
{
    if yes {
        Ok(())
    } else {
        Err(Refusal { question, place })
    }
}

// The index of the first value above `top`, or the length if there is none: question 5's place.
pub fn first_above(s: &[u8], top: u8) -> usize
    ensures { result ≡ first_above s.now top }
{
    for (i, &x) in s.iter().enumerate() {
        if x > top {
            return i;
        }
    }
    s.len()
}

// Question 5 of values 0..`top`.
pub fn in_range(s: &[u8], top: u8) -> Result<(), Refusal>
    ensures { result ≡ ask (leb (length s.now) (first_above s.now top)) (refused Question.Range (first_above s.now top)) done }
{
    let bad = first_above(s, top);
    ask(s.len() <= bad, Question::Range, bad as u64)
}
