// Test entries of the held searches for C, thin over their calls: what tests/run-vectors and tests/run-held call beside crates/entries. An archive of their own, since that of crates/entries has none.
#![tactic(auto)]

ghost use Rattle.std.specs.Prelude.{◌≡◌};
ghost use Rattle.store_held.specs.Calls.{empty_store};
ghost use Rattle.held_entries.specs.Told.{held_found_of, HoldReplied, TakeReplied};

use entries::Found;
use store_held::{HeldAnswer, Store};

#[unsafe(no_mangle)]
pub extern "C" fn entry_empty_store() -> Store
    ensures { result ≡ empty_store }
{
    store_held::empty_store()
}

// What a call on a store answers, as C gets it, and the store.
#[repr(C)]
#[derive(Drop)]
pub struct HeldFound {
    pub found: Found,
    pub store: Store,
}

impl From<HeldAnswer> for HeldFound {
    ghost from_gives = { λ outcome told. told ≡ held_found_of outcome };

    fn from(outcome: HeldAnswer) -> HeldFound {
        HeldFound {
            found: outcome.answer.into(),
            store: outcome.store,
        }
    }
}

#[unsafe(no_mangle)]
pub extern "C" fn entry_hold_search(
    store: Store,
    name: u64,
    soft: &[u8],
    level: u64,
    limit: u64,
) -> HeldFound
    ensures { HoldReplied store name soft.now level limit result }
{
    store_held::hold_search(store, name, soft, level, limit).into()
}

#[unsafe(no_mangle)]
pub extern "C" fn entry_take_up(store: Store, name: u64, limit: u64) -> HeldFound
    ensures { TakeReplied store name limit result }
{
    store_held::take_up(store, name, limit).into()
}
