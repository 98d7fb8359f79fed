// Page decoding, level by level, on the columns of a soft page.
#![tactic(auto)]

ghost use Rattle.std.specs.Prelude.{List, Some, ◌≡◌, ◌<◌, ◌≤◌, ◌||◌, ℤ, length};
ghost use Rattle.column.specs.Shape.{short};
ghost use Rattle.reedsolomon.specs.Row.{Symbols};
ghost use Rattle.concatenated.specs.Decode.{Reading, decoded_row};
ghost use Rattle.concatenated.specs.Chip.{some_column, some_below};
ghost use Rattle.concatenated.specs.OuterCode.{short_outer};
ghost use Rattle.concatenated.specs.Arrays.{SoftColumns};
ghost use Rattle.readings.specs.Steps.{RowRead};
ghost use Rattle.levels.specs.Levels.{none_held, holding, Ended, LevelDone, FewSteps, ColumnsDone};
ghost use Rattle.levels.specs.declared.LevelOut.{LevelOut};

use questions::refusal::{Question, Refusal};
use readings::{ColumnReader, Totals};
use softpage::{rows, sets};

// What a level gives: its row, the marks of its changed and erased columns, its steps and the lowest low point so far.
#[derive(Drop)]
pub struct LevelOut {
    pub row: [u8; 63],
    pub changed: u64,
    pub erased: u64,
    pub totals: Totals,
}

// What is held of the levels of a page: of each its row, and the marks of its changed and erased columns.
#[derive(Drop)]
pub struct Levels {
    pub rows: [[u8; 63]; 4],
    pub changed: [u64; 4],
    pub erased: [u64; 4],
}

impl Levels {
    // Nothing is held yet.
    pub fn new() -> Levels
        ensures { result ≡ none_held }
    {
        Levels {
            rows: [[0; 63]; 4],
            changed: [0; 4],
            erased: [0; 4],
        }
    }

    // Holds what a level gave.
    pub fn hold(&mut self, level: usize, out: LevelOut)
        requires { level < 4 }
        ensures { self.new ≡ holding self.old level out }
    {
        let row = out.row;
        self.rows[level] = row;
        self.changed[level] = out.changed;
        self.erased[level] = out.erased;
    }
}

// The rest of a level whose columns are read: the row is decoded, and its level words taken off. None: no word is in reach.
pub fn settle_level(
    work: &mut [[u8; 30]; 63],
    level: usize,
    symbols: &[u8; 63],
    marks: &[u8; 63],
    totals: Totals,
) -> Option<LevelOut>
    requires level_bound { (level < 4) × SoftColumns work.old × Symbols 6 symbols.now }
    requires rs_len { (rs : List Reading) × (z : ℤ) × (length rs ≡ 63) × RowRead level rs z symbols.now marks.now totals.steps totals.low }
    ensures ended { (rs : List Reading) (z : ℤ) → length rs ≡ 63 → RowRead level rs z symbols.now marks.now totals.steps totals.low
        → Ended (decoded_row short short_outer level rs) level rs z work.old result work.new }
    ensures count_value { (out : LevelOut) → result ≡ Some out → out.totals.steps ≡ totals.steps }
    ensures soft_columns { SoftColumns work.new }
{
    let mut row = [0u8; 63];
    if !outer::decode(symbols, marks, outer::roots(level), &mut row) {
        return None;
    }
    rows::take_off(work, level, &row);
    Some(LevelOut {
        row,
        changed: sets::changed_mark(symbols, marks, &row),
        erased: sets::mark_of(marks),
        totals,
    })
}

// One level: the columns are read, the row decoded, and its level words taken off.
fn decode_level<R: ColumnReader>(
    work: &mut [[u8; 30]; 63],
    level: usize,
    reader: &R,
    lowest: i16,
    scratch: &mut R::Scratch,
) -> Option<LevelOut>
    requires { (level < 4) × (R.limit reader.now ≤ 2000) × SoftColumns work.old }
    ensures { LevelDone (R.reader reader.now) level lowest work.old result work.new × FewSteps result × SoftColumns work.new
        × (R.noted scratch.new ≡ (R.noted scratch.old || some_column (R.test reader.now level) work.old)) }
{
    let mut symbols = [0u8; 63];
    let mut marks = [0u8; 63];
    let totals = readings::read_row(
        level,
        &*work,
        reader,
        lowest,
        scratch,
        &mut symbols,
        &mut marks,
    );
    settle_level(work, level, &symbols, &marks, totals)
}

// The levels of a page, on its columns: the steps of all levels and their lowest low point. Refused by 10, whose place is the level; what the arrays hold then is not told.
pub fn decode_columns<R: ColumnReader>(
    work: &mut [[u8; 30]; 63],
    reader: &R,
    scratch: &mut R::Scratch,
    held: &mut Levels,
) -> Result<Totals, Refusal>
    requires { (R.limit reader.now ≤ 2000) × SoftColumns work.old }
    ensures { ColumnsDone (R.reader reader.now) work.old result held.new
        × (R.noted scratch.new ≡ (R.noted scratch.old || some_below short short_outer (R.reader reader.now) work.old (R.test reader.now) 4)) }
{
    let mut steps = 0;
    let mut low = search::NONE_TAKEN;
    for level in 0..4 {
        let Some(out) = decode_level(&mut *work, level, reader, low, &mut *scratch) else {
            return Err(Refusal {
                question: Question::Reach,
                place: level as u64,
            });
        };
        steps += out.totals.steps;
        low = out.totals.low;
        held.hold(level, out);
    }
    Ok(Totals { steps, low })
}
