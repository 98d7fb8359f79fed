// The working stack of a search: 01, "The search".
//
// The paths stand in three arrays as a heap with four children a place: the children of place i are 4 i + 1 .. 4 i + 4, and no path stands before the one above it.
// A new path mostly stays near the end, where it was put: it is compared with one or two paths, while in a sorted array, on a hard column, it would move two thirds of all.
// Four children, because a way down then has half as many levels as with two, and the first of four is found by ranks, without branches.
//
// The argument. `push` and `sink` keep the heap, and what is in it: the same sum of weights for every weight (crate `heap`).
// So what comes out of `exchange` or `pop` stands after none that stay.
// Ranks order the paths for lengths below 64 and bits below 2^42 (`Small`).
#![tactic(auto)]

ghost use Rattle.std.specs.Prelude.{ℕ, suc, ◌+◌, ◌*◌, ◌<◌, ◌≤◌, ◌+ℤ◌, cond, ◌≡◌, ltb};
ghost use Rattle.std.specs.Int.{w16};
ghost use Rattle.std.proofs.Common.{SFits};
ghost use Rattle.heap.specs.Heap.{Heap, Every, Put, weigh};
ghost use Rattle.trellis.specs.Keys.{Key, key, key_before};
ghost use Rattle.stack.specs.Places.{path_key, row_keys, places, Upto, lifted, rank_of, Small, Span, Lead, Out, Next};

use std::marker::Model;

// A path: its sum, its length and its bits as a number, the first bit on top.
#[derive(Clone, Copy, Debug, PartialEq, Eq)]
pub struct Path {
    pub sum: i16,
    pub len: u8,
    pub bits: u64,
}

// A sum as a number that is not negative.
fn lift(sum: i16) -> u64
    ensures { (result ≡ lifted sum) × (result < 65536) }
{
    (i32::from(sum) + 32768) as u64
}

impl Path {
    // The path without bits: its extensions are where a search begins.
    pub const EMPTY: Path = Path {
        sum: 0,
        len: 0,
        bits: 0,
    };

    // Whether it stands before another: larger sum, then longer, then the smaller bits.
    pub fn stands_before(self, other: Path) -> bool
        ensures { result ≡ key_before (path_key self) (path_key other) }
    {
        if self.sum != other.sum {
            return other.sum < self.sum;
        }
        if self.len != other.len {
            return other.len < self.len;
        }
        self.bits < other.bits
    }

    // The path with one bit more, and what that bit gives to its sum.
    pub fn extended(self, bit: u64, value: i16) -> Path
        requires sum { SFits w16 (self.sum +ℤ value) }
        requires len { self.len < 255 }
        requires bits { (bit < 2) × (self.bits < 9223372036854775808) }
        ensures { path_key result ≡ key (self.sum +ℤ value) (suc self.len) (self.bits * 2 + bit) }
    {
        Path {
            sum: self.sum + value,
            len: self.len + 1,
            bits: self.bits * 2 + bit,
        }
    }

    // A number that is larger for the path that stands before: 16 bits of sum, 6 of length, 42 of bits.
    fn rank(self) -> u64
        ensures { result ≡ rank_of (path_key self) }
    {
        (lift(self.sum) * 64 + u64::from(self.len % 64)) * 4398046511104
            + (4398046511103 - self.bits % 4398046511104)
    }
}

// Where a path stands, and its rank.
#[derive(Drop)]
struct Spot {
    at: usize,
    rank: u64,
}

impl Spot {
    // The one of the larger rank, the first where they have one.
    fn larger(self, other: Spot) -> Spot
        ensures { (result.at ≡ cond (ltb self.rank other.rank) other.at self.at)
            × (result.rank ≡ cond (ltb self.rank other.rank) other.rank self.rank) }
    {
        if self.rank < other.rank { other } else { self }
    }
}

// Places of paths: 01's three arrays.
#[derive(Drop)]
pub struct Row<const N: usize> {
    pub sums: [i16; N],
    pub lens: [u8; N],
    pub bits: [u64; N],
}

impl<const N: usize> Row<N> {
    // The path at a place.
    pub fn get(&self, i: usize) -> Path
        requires { i < N }
        ensures { path_key result ≡ row_keys self.now i }
    {
        Path {
            sum: self.sums[i],
            len: self.lens[i],
            bits: self.bits[i],
        }
    }

    // A path comes to a place.
    pub fn put(&mut self, i: usize, path: Path)
        requires { i < N }
        ensures { Put (row_keys self.old) (row_keys self.new) i (path_key path) }
    {
        self.sums[i] = path.sum;
        self.lens[i] = path.len;
        self.bits[i] = path.bits;
    }

    // A place, and the rank of the path there.
    fn spot(&self, i: usize) -> Spot
        requires i_bound { i < N }
        requires small { Small (row_keys self.now i) }
        ensures { Span (row_keys self.now) i (i + 1) result.at result.rank }
    {
        Spot {
            at: i,
            rank: self.get(i).rank(),
        }
    }

    // The first in the order of the paths at the places c, c + 1, c + 2, c + 3, as far as there are paths there.
    fn first_child(&self, paths: usize, c: usize) -> Spot
        requires paths_bound { (paths ≤ N) × (c < paths) }
        requires every { Every Small (row_keys self.now) paths }
        ensures { Lead (row_keys self.now) paths c result.at result.rank }
    {
        let first = self.spot(c);
        if paths - c < 4 {
            if paths - c < 2 {
                return first;
            }
            let first = first.larger(self.spot(c + 1));
            if paths - c < 3 {
                return first;
            }
            return first.larger(self.spot(c + 2));
        }
        let first = first.larger(self.spot(c + 1));
        let second = self.spot(c + 2).larger(self.spot(c + 3));
        first.larger(second)
    }
}

// The stack: a row of places, of which the first have a path.
#[derive(Drop)]
pub struct Stack {
    pub row: Row<2002>,
    pub paths: usize,
}

// Clauses see the arrays and the number of paths. The paths stand as a heap, and ranks order them.
impl Model for Stack {
    ghost use Rattle.stack.specs.Places.{Stacked, Stands, row_keys};

    ghost Value = { Stacked };

    ghost view = { λ s. record { sums = s.row.sums; lens = s.row.lens; bits = s.row.bits; paths = s.paths } };

    ghost invariant = { λ s. Stands (row_keys s.row) s.paths };
}

impl Stack {
    // No path is there.
    pub fn new() -> Self
        ensures { result.paths ≡ 0 }
    {
        Stack {
            row: Row {
                sums: [0; 2002],
                lens: [0; 2002],
                bits: [0; 2002],
            },
            paths: 0,
        }
    }

    // No path is there any more; what the places hold does not matter.
    pub fn clear(&mut self)
        ensures { self.new.paths ≡ 0 }
    {
        self.paths = 0;
    }

    // A path comes to the paths that are there, at the end, and goes up to its place.
    pub fn push(&mut self, path: Path)
        requires room { self.old.paths < 2002 }
        requires small { Small (path_key path) }
        ensures paths { self.new.paths ≡ self.old.paths + 1 }
        ensures heap { Heap Upto (places self.new) self.new.paths }
        ensures by_index { (h : Key → ℕ) → weigh h (places self.new) self.new.paths
            ≡ weigh h (places self.old) self.old.paths + h (path_key path) }
    {
        let mut i = self.paths;
        while 0 < i {
            let p = (i - 1) / 4;
            let above = self.row.get(p);
            if above.stands_before(path) {
                break;
            }
            self.row.put(i, above);
            i = p;
        }
        self.row.put(i, path);
        self.paths += 1;
    }

    // A path comes to the root, whose path is no more there, and goes down to its place.
    fn sink(&mut self, path: Path)
        requires paths_nonzero { 0 < self.old.paths }
        requires small { Small (path_key path) }
        ensures paths { self.new.paths ≡ self.old.paths }
        ensures heap { Heap Upto (places self.new) self.old.paths }
        ensures by_index { (h : Key → ℕ) → weigh h (places self.new) self.old.paths + h (places self.old 0)
            ≡ weigh h (places self.old) self.old.paths + h (path_key path) }
    {
        let paths = self.paths;
        let rank = path.rank();
        let mut i: usize = 0;
        while i * 4 + 1 < paths {
            let child = self.row.first_child(paths, i * 4 + 1);
            if child.rank < rank {
                break;
            }
            self.row.put(i, self.row.get(child.at));
            i = child.at;
        }
        self.row.put(i, path);
    }

    // A path goes in, and the first of it and the paths that are there comes out. The sums are compared first: on a clean column they tell at every step.
    pub fn exchange(&mut self, path: Path) -> Path
        requires small { Small (path_key path) }
        ensures paths { self.new.paths ≡ self.old.paths }
        ensures out { Out (places self.new) self.new.paths (path_key result)
            (λ h. weigh h (places self.old) self.old.paths + h (path_key path)) }
    {
        if self.paths == 0 || self.row.sums[0] < path.sum {
            return path;
        }
        let root = self.row.get(0);
        if root.stands_before(path) {
            self.sink(path);
            return root;
        }
        path
    }

    // The first path comes out, if there is one; the one at the last place goes down from the root to its place.
    pub fn pop(&mut self) -> Option<Path>
        ensures { Next (places self.old) (places self.new) self.old.paths self.new.paths result }
    {
        if self.paths == 0 {
            return None;
        }
        let root = self.row.get(0);
        self.paths -= 1;
        if 0 < self.paths {
            let last = self.row.get(self.paths);
            self.sink(last);
        }
        Some(root)
    }
}
