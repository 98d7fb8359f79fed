// A batch of columns: 02, point 2. Each job is searched as the single supercode call searches its column, in list order.
//
// The argument. A job is asked and searched by the functions of the single call, so its answer is that call's. The search asks nothing of what its stack holds, so one serves the whole list.
// The loop over the list only hands each job on and puts it back: its invariant says no more than that.
#![tactic(auto)]

ghost use Rattle.std.specs.Prelude.{◌≡◌, map};
ghost use Rattle.trellis.specs.Demand.{supercode};
ghost use Rattle.trellis.specs.TwoWords.{off};
ghost use Rattle.search.specs.Outcomes.{SupercodesBelow};
ghost use Rattle.searches.specs.Searches.{search_answer};
ghost use Rattle.store_batches.specs.Jobs.{job_answer, noted, done_job};

use questions::refusal::{Question, Refusal};
use search::Found;
use stack::Stack;

// A job: the level and the first byte of its column in the soft buffer, and its answer: the number and place and, where a word was found, the word, the count and the low point.
#[repr(C)]
#[derive(Clone, Copy)]
pub struct Job {
    pub level: u64,
    pub first: u64,
    pub number: u64,
    pub place: u64,
    pub word: u64,
    pub count: u64,
    pub low: i64,
}

// What the single supercode call answers, over a stack and masks that are lent.
fn search_column(
    stack: &mut Stack,
    masks: &[[u64; 30]; 8],
    column: &[u8],
    level: u64,
    limit: u64,
) -> Result<Found, Refusal>
    requires { SupercodesBelow 4 masks.now }
    ensures { result ≡ search_answer off supercode level column.now limit }
{
    searches::asked(level, column, limit, None)?;
    searches::search_supercodes(stack, masks, column, level as usize, limit)
}

// The answer of a job: 12, then the single call's on its column.
fn answer_of(
    stack: &mut Stack,
    masks: &[[u64; 30]; 8],
    soft: &[u8],
    job: Job,
    limit: u64,
) -> Result<Found, Refusal>
    requires { SupercodesBelow 4 masks.now }
    ensures { result ≡ job_answer soft.now limit job }
{
    let lies_in = 30 <= soft.len() && job.first <= (soft.len() - 30) as u64;
    questions::ask(lies_in, Question::Bytes, 0)?;
    let first = job.first as usize;
    let end = first + 30;
    search_column(stack, masks, &soft[first..end], job.level, limit)
}

// A job with its answer written in.
fn note(job: Job, answer: Result<Found, Refusal>) -> Job
    ensures { result ≡ noted job answer }
{
    match answer {
        Ok(found) => Job {
            number: 0,
            place: 0,
            word: found.word,
            count: found.count,
            low: i64::from(found.low),
            ..job
        },
        Err(refusal) => Job {
            number: refusal.question.number(),
            place: refusal.place,
            ..job
        },
    }
}

// A job, done: the stack and the masks are lent for the whole batch; the stack may hold anything.
fn run_job(stack: &mut Stack, masks: &[[u64; 30]; 8], soft: &[u8], job: Job, limit: u64) -> Job
    requires { SupercodesBelow 4 masks.now }
    ensures { result ≡ done_job soft.now limit job }
{
    let answer = answer_of(stack, masks, soft, job, limit);
    note(job, answer)
}

// A batch: each job of the list is searched on the 30 bytes of `soft` from its first byte on, in list order, with the call's limit; buffer and list may have any length, and columns may overlap.
// A job is refused by 12, 3, 4, 5 or 9: it gets the number and place, and keeps the rest. The call itself refuses nothing.
#[unsafe(no_mangle)]
pub extern "C" fn search_batch(soft: &[u8], jobs: &mut [Job], limit: u64)
    ensures { jobs.new ≡ map (done_job soft.now limit) jobs.old }
{
    let mut stack = Stack::new();
    let masks = search::short_page::supercode_masks();
    for job in jobs.iter_mut() {
        *job = run_job(&mut stack, &masks, soft, *job, limit);
    }
}
