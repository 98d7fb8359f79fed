// Held searches: 02, point 13. A spent supercode search is held under one of four names and taken up later with more steps.
// The store of names goes in and comes back by value: 56 KB, so a call and its caller need some 0.4 MB of stack.
#![tactic(auto)]

ghost use Rattle.std.specs.Prelude.{◌≡◌};
ghost use Rattle.questions.specs.Answer.{refused, done};
ghost use Rattle.store_held.specs.Names.{ask_hold, ask_more};
ghost use Rattle.store_held.specs.Calls.{empty_store, HoldCall, TakeCall};

use held::Held;
use questions::refusal::{Question, Refusal};
use search::Found;

// The store of four names.
#[repr(C)]
#[derive(Drop)]
pub struct Store {
    pub names: [Held; 4],
}

// What a call on a store answers, and the store.
#[derive(Drop)]
pub struct HeldAnswer {
    pub answer: Result<Found, Refusal>,
    pub store: Store,
}

// The store in which nothing is held.
#[tactic(auto, unfolding(crate::specs::Calls::empty_store))]
pub fn empty_store() -> Store
    ensures { result ≡ empty_store }
{
    let nothing = held::nothing();
    Store {
        names: [nothing; 4],
    }
}

// The questions of a first call before 9, in their order.
fn asked_to_hold(name: u64, soft: &[u8], level: u64, limit: u64) -> Result<(), Refusal>
    ensures { result ≡ ask_hold name soft.now level limit refused done }
{
    questions::ask(soft.len() == 30, Question::InputLength, 0)?;
    questions::ask(level < 4, Question::Level, 0)?;
    questions::ask(name < 4, Question::Name, 0)?;
    searches::asked(level, soft, limit, None)
}

// The questions of taking up before 9, of a name and its summed limit.
fn asked_for_more(summed: u64, limit: u64) -> Result<(), Refusal>
    ensures { result ≡ ask_more summed limit refused done }
{
    questions::ask(1 <= summed, Question::Held, 0)?;
    questions::ask(1 <= limit, Question::Limit, 0)?;
    questions::ask(limit <= 2000, Question::Limit, 0)?;
    questions::ask(summed <= 2000 - limit, Question::SummedLimit, 0)
}

// The first call on a store that is lent.
fn hold(store: &mut Store, name: u64, soft: &[u8], level: u64, limit: u64) -> Result<Found, Refusal>
    ensures { HoldCall store.old name soft.now level limit (record { answer = result; store = store.new }) }
{
    asked_to_hold(name, soft, level, limit)?;
    let gone = held::go_on(held::begin(soft, level), limit);
    match gone.found {
        Some(found) => Ok(found),
        None => {
            store.names[name as usize] = gone.held;
            Err(Refusal {
                question: Question::Spent,
                place: 0,
            })
        }
    }
}

// Taking up on a store that is lent.
fn take(store: &mut Store, name: u64, limit: u64) -> Result<Found, Refusal>
    ensures { TakeCall store.old name limit (record { answer = result; store = store.new }) }
{
    questions::ask(name < 4, Question::Name, 0)?;
    let i = name as usize;
    let held = store.names[i];
    asked_for_more(held.limit, limit)?;
    questions::ask(held::ready::is_ready(&held), Question::Held, 0)?;
    let gone = held::go_on(held, held.limit + limit);
    match gone.found {
        Some(found) => {
            store.names[i] = held::nothing();
            Ok(found)
        }
        None => {
            store.names[i] = gone.held;
            Err(Refusal {
                question: Question::Spent,
                place: 0,
            })
        }
    }
}

// The supercode search of a column, which is held under a name if it is spent. Refused by 1, 3, 16, 4, 5 and 9. A 9 puts the search under its name, in the place of another; any other number leaves the store as it was.
pub fn hold_search(mut store: Store, name: u64, soft: &[u8], level: u64, limit: u64) -> HeldAnswer
    ensures { HoldCall store name soft.now level limit result }
{
    let answer = hold(&mut store, name, soft, level, limit);
    HeldAnswer { answer, store }
}

// The search that a name holds goes on with more steps. Refused by 16, 17, 4, 18 and 9. A 9 leaves it held with the summed limit; a word frees the name; any other number leaves the store as it was.
// A state that no search can go on from, which these calls never make, is refused by 17.
pub fn take_up(mut store: Store, name: u64, limit: u64) -> HeldAnswer
    ensures { TakeCall store name limit result }
{
    let answer = take(&mut store, name, limit);
    HeldAnswer { answer, store }
}
