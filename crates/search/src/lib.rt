// The search of a column: 01, "The search". A step is `extension::advance`; the stack is crate `stack`.
//
// The argument. `advance` does to the heap what `grow` and taking the head do to the list of the specification, and `run` goes on as `run_keys` does, from any state that stands for one.
// One path more at most is on the stack after a step, so 2,002 places suffice for 2,000 steps.
// The lowest sum of all paths taken is the low point of the word: until the word is taken one of its prefixes is on the stack, so no path taken has a sum below all of theirs.
#![tactic(auto)]

pub mod short_page;

ghost use Rattle.std.specs.Prelude.{◌≤◌, ◌<◌, ◌+◌, ◌≡◌, List};
ghost use Rattle.paths.specs.Low.{lower};
ghost use Rattle.heap.specs.Holds.{Holds};
ghost use Rattle.trellis.specs.Values.{Values};
ghost use Rattle.trellis.specs.Keys.{Key};
ghost use Rattle.stack.specs.Places.{path_key, places, Upto};
ghost use Rattle.extension.specs.Steps.{TableOf};
ghost use Rattle.extension.specs.Lent.{GivenBy};
ghost use Rattle.search.specs.Progress.{Standing, Reached};
ghost use Rattle.search.specs.Lent.{key_nodes_of};

use extension::Trellis;
use stack::{Path, Stack};

// What a search has found: the word, the number of paths taken, the word included, and its low point.
#[derive(Clone, Copy, Debug, PartialEq, Eq)]
pub struct Found {
    pub word: u64,
    pub count: u64,
    pub low: i16,
}

// Where a search stands, beside its stack: the number of paths taken, the last of them, and their lowest sum.
// A last path without bits: nothing is taken yet, or the stack ran empty.
#[derive(Clone, Copy)]
pub struct Progress {
    pub count: u64,
    pub last: Path,
    pub low: i16,
}

// What the lowest sum is before a path is taken, and the lowest low point before a column is read: no sum is above it.
pub const NONE_TAKEN: i16 = i16::MAX;

impl Progress {
    // Nothing is taken.
    pub const START: Progress = Progress {
        count: 0,
        last: Path::EMPTY,
        low: NONE_TAKEN,
    };

    // What a search that stands there has found, if the last path taken is a word.
    pub fn found(self) -> Found
        ensures { result ≡ record { word = self.last.bits; count = self.count; low = self.low } }
    {
        Found {
            word: self.last.bits,
            count: self.count,
            low: self.low,
        }
    }

    // One path more is taken.
    #[tactic(auto, using(crate::proofs::Lowest::smaller_is_lower))]
    fn next(self, last: Path) -> Progress
        requires { self.count < 2000 }
        ensures count { result.count ≡ self.count + 1 }
        ensures last { result.last ≡ last }
        ensures low { result.low ≡ lower self.low last.sum }
    {
        Progress {
            count: self.count + 1,
            // by fields: a copy of the whole carries the bytes between them through every step, 15 % on a clean column
            last: Path {
                sum: last.sum,
                len: last.len,
                bits: last.bits,
            },
            low: self.low.min(last.sum),
        }
    }
}

// The search goes on from where it stands, until a word is taken, the limit is reached or the stack is empty.
pub fn run(stack: &mut Stack, trellis: &Trellis, state: Progress, limit: u64) -> Progress
    requires limit_bound { limit ≤ 2000 }
    requires given { GivenBy trellis.now }
    requires standing { Standing trellis.now.n (places stack.old) stack.old.paths state.count (path_key state.last) }
    ensures standing_2 { Standing trellis.now.n (places stack.new) stack.new.paths result.count (path_key result.last) }
    ensures reached { (vs : Values) → TableOf vs trellis.now.values.now → (xs : List Key) → Holds Upto (places stack.old) stack.old.paths xs
        → Reached (key_nodes_of vs trellis.now) trellis.now.n limit (places stack.new)
        state.count (path_key state.last) state.low xs stack.new.paths result.count (path_key result.last) result.low }
{
    let mut state = state;
    for _ in state.count..limit {
        let Some(last) = extension::advance(stack, trellis, state.last) else {
            return Progress {
                last: Path::EMPTY,
                ..state
            };
        };
        state = state.next(last);
        if last.len == trellis.n {
            return state;
        }
    }
    state
}
