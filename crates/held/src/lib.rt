// A search that is held: 02, point 13. It keeps its column, its level and the state it stands in, so that it goes on from there.
//
// The argument. `search::run` goes on from every state that stands. Where the definition's search stops in that state after so many steps, going on is the definition's search with a larger limit.
// Whether a state stands can be tested (`ready`), so a state that no search made is safe too.
#![tactic(auto)]

pub mod ready;

ghost use Rattle.std.specs.Prelude.{◌<◌, ◌≤◌, ◌≡◌, length};
ghost use Rattle.stack.specs.Places.{path_key};
ghost use Rattle.held.specs.Entry.{nothing_held, begun_held, last_of, paths_of};
ghost use Rattle.held.specs.State.{outcome_at, Narrowed, Ready, WentOn};

use search::{Found, Progress};
use stack::{Path, Row, Stack};

// A held search: its summed limit, its level and its column; the number of paths on the stack; the last path taken, its bits, its sum and its length; the lowest sum of those taken; the stack's three arrays, the bits in 32 where the search has 64.
// It has taken as many paths as its limit says. A limit of 0: nothing is held.
#[repr(C)]
#[derive(Clone, Copy)]
pub struct Held {
    pub limit: u64,
    pub level: u64,
    pub paths: usize,
    pub last: u64,
    pub sum: i16,
    pub low: i16,
    pub len: u8,
    pub column: [u8; 30],
    pub lens: [u8; 2002],
    pub sums: [i16; 2002],
    pub bits: [u32; 2002],
}

// The last path taken and those on the stack as the search has them.
impl Held {
    fn last_taken(&self) -> Path
        ensures { path_key result ≡ last_of self.now }
    {
        Path {
            sum: self.sum,
            len: self.len,
            bits: self.last,
        }
    }

    fn path(&self, j: usize) -> Path
        requires { j < 2002 }
        ensures { path_key result ≡ paths_of self.now j }
    {
        Path {
            sum: self.sums[j],
            len: self.lens[j],
            bits: u64::from(self.bits[j]),
        }
    }
}

// Nothing is held.
pub fn nothing() -> Held
    ensures { result ≡ nothing_held }
{
    Held {
        limit: 0,
        level: 0,
        paths: 0,
        last: 0,
        sum: 0,
        low: 0,
        len: 0,
        column: [0; 30],
        lens: [0; 2002],
        sums: [0; 2002],
        bits: [0; 2002],
    }
}

// The search of a column of which no step is made.
pub fn begin(soft: &[u8], level: u64) -> Held
    requires { length soft.now ≡ 30 }
    ensures { result ≡ begun_held soft.now level }
{
    let mut column = [0u8; 30];
    column.copy_from_slice(soft);
    Held {
        level,
        low: search::NONE_TAKEN,
        column,
        ..nothing()
    }
}

// The bits of the paths as the search has them.
fn widened(bits: &[u32; 2002]) -> [u64; 2002]
    ensures { result ≡ bits.now }
{
    let mut wide = [0u64; 2002];
    for k in 0..2002 {
        wide[k] = u64::from(bits[k]);
    }
    wide
}

// The bits of the paths as they are held: a path has at most 30.
fn narrowed(bits: &[u64; 2002]) -> [u32; 2002]
    ensures { Narrowed bits.now result }
{
    let mut narrow = [0u32; 2002];
    for k in 0..2002 {
        narrow[k] = (bits[k] % 4294967296) as u32;
    }
    narrow
}

// What a search that stopped in a state has found.
fn outcome_at(state: Progress) -> Option<Found>
    ensures { result ≡ outcome_at state }
{
    if state.last.len == 30 {
        Some(state.found())
    } else {
        None
    }
}

// What a search that went on has found, and the search where it stopped.
#[derive(Drop)]
pub struct Gone {
    pub found: Option<Found>,
    pub held: Held,
}

// A held search goes on, up to `limit` steps in all.
pub fn go_on(held: Held, limit: u64) -> Gone
    requires limit_lt_limit { (held.limit < limit) × (limit ≤ 2000) }
    requires ready { Ready held }
    ensures { WentOn held limit result }
{
    let tables = search::short_page::tables_of(held.level as usize, true);
    let mut stack = Stack {
        row: Row {
            sums: held.sums,
            lens: held.lens,
            bits: widened(&held.bits),
        },
        paths: held.paths,
    };
    let state = Progress {
        count: held.limit,
        last: held.last_taken(),
        low: held.low,
    };
    let end = search::run(&mut stack, &tables.trellis(&held.column), state, limit);
    Gone {
        found: outcome_at(end),
        held: Held {
            limit,
            paths: stack.paths,
            last: end.last.bits,
            sum: end.last.sum,
            low: end.low,
            len: end.last.len,
            lens: stack.row.lens,
            sums: stack.row.sums,
            bits: narrowed(&stack.row.bits),
            ..held
        },
    }
}
