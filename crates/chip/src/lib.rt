// The search with 64 places on the stack: 02, point 5.
//
// Beside the path just taken there are at most 63 others between two steps: they stand in three arrays in the order, the first at the highest place, the last at place 0.
// Taking the first is a number made smaller. While there is a place, a path goes in from the first on: on a clean column it stays where it was put.
// Where there is none, it goes in from the last on, and the last is pushed out: then most paths that come stand near the end.
//
// The argument. `enter` and `displace` do to the arrays what `insert` and a cut do to the list of the specification.
// The extension that agrees with the soft value stands before the other (`Leading`): so it is compared with the first path alone, and the other never is the first.
#![tactic(auto)]

pub mod short_page;

ghost use Rattle.std.specs.Prelude.{◌<◌, ◌||◌, ◌&&◌, true, false, [], ◌∷◌, ◌≡◌, eqb, length, get_or, take};
ghost use Rattle.paths.specs.Bounded.{bounded};
ghost use Rattle.paths.specs.Lists.{Mem};
ghost use Rattle.trellis.specs.Values.{Values};
ghost use Rattle.trellis.specs.Keys.{Key};
ghost use Rattle.trellis.specs.Bounded.{key_search_within};
ghost use Rattle.stack.specs.Places.{path_key};
ghost use Rattle.extension.specs.Steps.{Good, Held, TableOf};
ghost use Rattle.extension.specs.Lent.{GivenBy, nodes_of};
ghost use Rattle.chip.specs.Places.{placed, Leading, Standing, First, Stepped};
ghost use Rattle.chip.specs.Outcomes.{outcome_of};

use extension::Trellis;
use search::Found;
use stack::{Path, Row};
use std::marker::Model;

// The stack between two steps: its places, of which the first have a path, and whether any path was pushed out so far.
#[derive(Drop)]
pub struct ChipStack {
    pub row: Row<64>,
    pub paths: usize,
    pub pushed: bool,
}

// Clauses see the paths as the specification does: a list, the first at the head, and the flag.
impl Model for ChipStack {
    ghost use Rattle.paths.specs.Bounded.{Bounded, bounded};
    ghost use Rattle.trellis.specs.Keys.{Key};
    ghost use Rattle.std.specs.Prelude.{◌≤◌};
    ghost use Rattle.heap.specs.Holds.{Ordered};
    ghost use Rattle.stack.specs.Places.{row_keys, Upto};
    ghost use Rattle.chip.specs.Places.{listed};

    ghost Value = { Bounded Key };

    ghost view = { λ s. bounded (listed (row_keys s.row) s.paths) s.pushed };

    ghost invariant = { λ s. (s.paths ≤ 63) × Ordered Upto (listed (row_keys s.row) s.paths) };
}

impl ChipStack {
    // No path is there.
    pub fn new() -> Self
        ensures { result ≡ bounded [] false }
    {
        ChipStack {
            row: Row {
                sums: [0; 64],
                lens: [0; 64],
                bits: [0; 64],
            },
            paths: 0,
            pushed: false,
        }
    }

    // No path is there any more, and none is pushed out; what the places hold does not matter.
    pub fn clear(&mut self)
        ensures { self.new ≡ bounded [] false }
    {
        self.paths = 0;
        self.pushed = false;
    }

    // A path comes where there is a place: those that stand before it move up by one place.
    fn enter(&mut self, path: Path)
        requires { length self.old.stack < 63 }
        ensures { self.new ≡ bounded (placed (path_key path) self.old.stack) self.old.any_pushed_out }
    {
        let paths = self.paths;
        let mut i = paths;
        while 0 < i {
            let below = self.row.get(i - 1);
            if !below.stands_before(path) {
                break;
            }
            self.row.put(i, below);
            i -= 1;
        }
        self.row.put(i, path);
        self.paths = paths + 1;
    }

    // A path comes to 63, of which the last is pushed out, or the path itself if it stands after all: those that do not stand before it move down by one place.
    fn displace(&mut self, path: Path)
        requires { length self.old.stack ≡ 63 }
        ensures { self.new ≡ bounded (take 63 (placed (path_key path) self.old.stack)) true }
    {
        self.pushed = true;
        if self.row.get(0).stands_before(path) {
            return;
        }
        let mut i: usize = 0;
        // where it ends is the path's place
        while i < 62 {
            let above = self.row.get(i + 1);
            if above.stands_before(path) {
                break;
            }
            self.row.put(i, above);
            i += 1;
        }
        self.row.put(i, path);
    }

    // A path goes in at its place; where 63 are there, the last is pushed out.
    fn settle(&mut self, path: Path)
        ensures { self.new ≡ bounded (take 63 (placed (path_key path) self.old.stack)) (self.old.any_pushed_out || eqb (length self.old.stack) 63) }
    {
        if self.paths == 63 {
            self.displace(path);
        } else {
            self.enter(path);
        }
    }

    // A path goes in, and the first of it and those that are there comes out. The sums are compared first: on a clean column they tell at every step.
    // As a call it would hand the path through memory, and a clean page would take half as many instructions more.
    #[inline(always)]
    fn exchange(&mut self, path: Path) -> Path
        ensures standing { Standing self.old.stack }
        ensures first { placed (path_key path) self.old.stack ≡ path_key result ∷ self.new.stack }
        ensures pushed { self.new.any_pushed_out ≡ self.old.any_pushed_out }
    {
        if self.paths == 0 || self.row.sums[self.paths - 1] < path.sum {
            return path;
        }
        let first = self.row.get(self.paths - 1);
        if first.stands_before(path) {
            self.paths -= 1;
            self.enter(path);
            return first;
        }
        path
    }

    // The first path comes out, if there is one.
    fn take_next(&mut self) -> Option<Path>
        ensures standing { Standing self.old.stack }
        ensures first { First self.old.stack self.new.stack result }
        ensures pushed { self.new.any_pushed_out ≡ self.old.any_pushed_out }
    {
        if self.paths == 0 {
            return None;
        }
        self.paths -= 1;
        Some(self.row.get(self.paths))
    }

    // The existing extensions of a path shorter than a word go in, what has no place is pushed out, and the first path of all comes out.
    fn advance(&mut self, trellis: &Trellis, path: Path) -> Option<Path>
        requires short { path.len < trellis.now.n }
        requires given { GivenBy trellis.now }
        requires leading { Leading trellis.now.values.now }
        requires good { Good trellis.now.n (path_key path) }
        requires held { (k : Key) → Mem k self.old.stack → Held trellis.now.n k }
        ensures { Stepped (nodes_of trellis.now) trellis.now.n self.old self.new (path_key path) result }
    {
        let j = path.len as usize;
        let q = trellis.col[j];
        let x = trellis.left[j];
        let y = trellis.right[j];
        if extension::unchecked(x, y) {
            let bit = extension::read_bit(q);
            let agreeing = path.extended(bit, extension::value_of(trellis.values, q, bit));
            let other = path.extended(1 - bit, extension::other_value(trellis.values, q, bit));
            let first = self.exchange(agreeing);
            self.settle(other);
            return Some(first);
        }
        let u = extension::parity_under(path.bits * 2, x);
        let v = extension::parity_under(path.bits * 2, y);
        if extension::conflicting(x, y, u, v) {
            return self.take_next();
        }
        let bit = extension::asked_bit(u, v);
        Some(self.exchange(path.extended(bit, extension::value_of(trellis.values, q, bit))))
    }

    // Whether the extensions of a path that is not full push one out.
    fn crowds(&self, trellis: &Trellis, path: Path) -> bool
        requires short { path.len < trellis.now.n }
        requires given { GivenBy trellis.now }
        ensures { result ≡ (eqb (length self.now.stack) 63 && (eqb (get_or trellis.now.left.now path.len 0) 0 && eqb (get_or trellis.now.right.now path.len 0) 0)) }
    {
        let j = path.len as usize;
        self.paths == 63 && extension::unchecked(trellis.left[j], trellis.right[j])
    }
}

// How a search ends: the outcome, the number of paths taken, and whether any path was pushed out. Without a word that number is the limit, or less where the stack ran empty.
#[derive(Clone, Copy)]
pub struct ChipOutcome {
    pub found: Option<Found>,
    pub count: u64,
    pub pushed: bool,
}

// The search of a soft column for the first word of two trellises, with 64 places and a limit on the paths taken; what is on the stack does not matter.
pub fn search(stack: &mut ChipStack, trellis: &Trellis, limit: u64) -> ChipOutcome
    requires given { GivenBy trellis.now }
    requires leading { Leading trellis.now.values.now }
    ensures { (vs : Values) → TableOf vs trellis.now.values.now
        → result ≡ outcome_of (key_search_within 64 trellis.now.n vs trellis.now.col.now trellis.now.left.now trellis.now.right.now limit) }
{
    stack.clear();
    let mut last = Path::EMPTY;
    let mut low = search::NONE_TAKEN;
    for count in 0..limit {
        let Some(path) = stack.advance(trellis, last) else {
            return ChipOutcome {
                found: None,
                count,
                pushed: stack.pushed,
            };
        };
        last = path;
        low = low.min(path.sum);
        if path.len == trellis.n {
            let count = count + 1;
            return ChipOutcome {
                found: Some(Found {
                    word: path.bits,
                    count,
                    low,
                }),
                count,
                pushed: stack.pushed,
            };
        }
    }
    ChipOutcome {
        found: None,
        count: limit,
        pushed: stack.pushed || stack.crowds(trellis, last),
    }
}
