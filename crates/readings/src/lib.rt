// The reading of a level: each column is searched, re-imaged and marked.
//
// Pages are decoded in more than one way to read a column: `ColumnReader` says what is asked of one.
#![tactic(auto)]

ghost use Rattle.std.specs.Prelude.{Bool, List, false, [], ◌∷◌, map, ◌≡◌, ℕ, ◌<◌, ◌≤◌, ◌||◌, length, is_some};
ghost use Rattle.column.specs.Shape.{short};
ghost use Rattle.paths.specs.Low.{lowest_from};
ghost use Rattle.concatenated.specs.Decode.{Reader, symbol, mark, count, lows};
ghost use Rattle.concatenated.specs.Chip.{some_column};
ghost use Rattle.concatenated.specs.SoftPage.{Soft};
ghost use Rattle.concatenated.specs.Flags.{flag};
ghost use Rattle.concatenated.specs.Arrays.{SoftColumns};
ghost use Rattle.concatenated.proofs.Readings.{ShortReadsWords, short_readers_read_words};
ghost use Rattle.search.specs.Outcomes.{TablesFor, search_of};
ghost use Rattle.list_of_two.specs.Hard.{HardFor};
ghost use Rattle.list_of_two.specs.Ways.{choice_of};
ghost use Rattle.readings.specs.Steps.{as_reading, way_reader, WordInRange, RowRead};

use list_of_two::Way;
use list_of_two::hard::HardTables;
use search::Found;
use search::short_page::Tables;
use stack::Stack;

// A way to read the columns of a page, by searches over a lent scratch; what is left there of other searches does not matter.
pub trait ColumnReader {
    // What the searches of a level read: made once a level and lent to them.
    type Tables: Drop;

    // What a search works on, and what is noted of the searches so far.
    type Scratch;

    // The reading of each column at each level.
    ghost reader: { Self → Reader };

    // The most steps that a search takes.
    ghost limit: { Self → ℕ };

    // The tables are those of the level.
    ghost made: { Self → ℕ → Self.Tables → Type 0 };

    // What is to be noted of the search of a column at a level.
    ghost test: { Self → ℕ → List ℕ → Bool };

    // Whether it was noted of any search so far.
    ghost noted: { Self.Scratch → Bool };

    fn tables(&self, level: usize) -> Self::Tables
        requires { level < 4 }
        ensures { made self.now level result };

    // The word of a column with its count and low point, or the count of a search without one.
    fn read(
        &self,
        tables: &Self::Tables,
        column: &[u8; 30],
        scratch: &mut Self::Scratch,
    ) -> Result<Found, u64>
        requires limit_bound { limit self.now ≤ 2000 }
        requires by_index { (i : ℕ) × (i < 4) × made self.now i tables.now }
        requires soft { (length column.now ≡ 30) × Soft column.now }
        ensures value { (i : ℕ) → i < 4 → made self.now i tables.now → as_reading result ≡ reader self.now i column.now }
        ensures noted_value { (i : ℕ) → i < 4 → made self.now i tables.now → noted scratch.new ≡ (noted scratch.old || test self.now i column.now) };

    // What is read is a word of the level, of no more steps than the limit.
    ghost reads_words: { (w : Self) → ShortReadsWords (limit w) (reader w) };
}

// The tables of a way's searches: those of the search, and those of the hard reading.
#[derive(Drop)]
pub struct WayTables {
    pub search: Tables,
    pub hard: HardTables,
}

// Columns are searched in a way: nothing is noted. A spent column counts the limit.
impl ColumnReader for Way {
    type Tables = WayTables;

    type Scratch = Stack;

    ghost reader = { way_reader };

    ghost limit = { λ w. w.limit };

    ghost made = { λ w i t. TablesFor (search_of w.in_supercodes) i t.search.left t.search.right t.search.values
        × HardFor (is_some w.threshold) i t.search.values t.hard.checks t.hard.agreeing };

    ghost test = { λ w i c. false };

    ghost noted = { λ s. false };

    fn tables(&self, level: usize) -> WayTables {
        let search = search::short_page::tables_of(level, self.in_supercodes);
        let hard = list_of_two::hard::tables_of(level, &search.values, self.threshold.is_some());
        WayTables { search, hard }
    }

    fn read(
        &self,
        tables: &WayTables,
        column: &[u8; 30],
        scratch: &mut Stack,
    ) -> Result<Found, u64> {
        let trellis = tables.search.trellis(column);
        list_of_two::search_by(scratch, &trellis, &tables.hard, *self).ok_or(self.limit)
    }

    ghost reads_words = { λ w. short_readers_read_words (choice_of w) (search_of w.in_supercodes) w.limit };
}

#[derive(Drop)]
pub struct Entry {
    pub symbol: u8,
    pub mark: u8,
    pub count: u64,
    pub low: i16,
}

// What is read of a level beside its symbols and marks: the steps, and the lowest low point so far.
#[derive(Clone, Copy)]
pub struct Totals {
    pub steps: u64,
    pub low: i16,
}

// What a column enters the row with: the symbol that its word re-images to, or 0 and a mark; and the lowest low point with its own, if it has one.
pub fn enter(level: usize, lowest: i16, found: Result<Found, u64>) -> Entry
    requires { (level < 4) × WordInRange found }
    ensures { (result.symbol ≡ symbol short level (as_reading found)) × (result.mark ≡ flag (mark (as_reading found))) × (result.count ≡ count (as_reading found))
        × (result.low ≡ lowest_from lowest (lows (as_reading found ∷ []))) }
{
    match found {
        Ok(found) => Entry {
            symbol: column::reimage(level, found.word) as u8,
            mark: 0,
            count: found.count,
            low: lowest.min(found.low),
        },
        Err(count) => Entry {
            symbol: 0,
            mark: 1,
            count,
            low: lowest,
        },
    }
}

// Reads each column at a level: writes the symbols of the row and the flags of its erased columns, and gives the steps and the lowest of the given and its low points.
pub fn read_row<R: ColumnReader>(
    level: usize,
    work: &[[u8; 30]; 63],
    reader: &R,
    lowest: i16,
    scratch: &mut R::Scratch,
    symbols: &mut [u8; 63],
    marks: &mut [u8; 63],
) -> Totals
    requires { (level < 4) × (R.limit reader.now ≤ 2000) × SoftColumns work.now }
    ensures { RowRead level (map (R.reader reader.now level) work.now) lowest symbols.new marks.new result.steps result.low
        × (R.noted scratch.new ≡ (R.noted scratch.old || some_column (R.test reader.now level) work.now)) }
{
    let tables = reader.tables(level);
    let mut steps = 0;
    let mut low = lowest;
    for j in 0..63 {
        let found = reader.read(&tables, &work[j], &mut *scratch);
        let e = enter(level, low, found);
        symbols[j] = e.symbol;
        marks[j] = e.mark;
        steps += e.count;
        low = e.low;
    }
    Totals { steps, low }
}
