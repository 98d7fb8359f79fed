// Sets of columns as marks, column j at bit j: 02, point 6. The totals of the report are counts of ones on them.
ghost use Rattle.std.specs.Prelude.{map, ◌≡◌, length};
ghost use Rattle.std.specs.Int.Count.{ones};
ghost use Rattle.concatenated.specs.Decode.{is_changed, changed};
ghost use Rattle.concatenated.specs.Flags.{is_one};
ghost use Rattle.concatenated.specs.Marks.{mark_of};

// Whether a row altered the symbol of an unerased column.
fn altered(x: u8, erased: u8, y: u8) -> bool
    ensures { result ≡ is_changed (is_one erased) x y }
{
    erased != 1 && x != y
}

// The mark of the columns whose flag is set. Flags are 01's marks of a row, 1 = erased; a mark is 02's, a bit a column.
pub fn mark_of(flags: &[u8; 63]) -> u64
    requires { length flags.now ≡ 63 }
    ensures { result ≡ mark_of (map is_one flags.now) }
{
    let mut mark: u64 = 0;
    for (j, &flag) in flags.iter().enumerate() {
        mark |= u64::from(flag == 1) << j;
    }
    mark
}

// The mark of the changed columns: unerased ones whose symbol the row altered.
pub fn changed_mark(symbols: &[u8; 63], erased: &[u8; 63], row: &[u8; 63]) -> u64
    requires { (length symbols.now ≡ 63) × (length erased.now ≡ 63) × (length row.now ≡ 63) }
    ensures { result ≡ mark_of (changed symbols.now (map is_one erased.now) row.now) }
{
    let mut mark: u64 = 0;
    for j in 0..63 {
        mark |= u64::from(altered(symbols[j], erased[j], row[j])) << j;
    }
    mark
}

// How many columns a mark has.
fn total_of(mark: u64) -> u8
    ensures { result ≡ ones mark }
{
    mark.count_ones() as u8
}

// How many columns each of four marks has.
pub fn totals(marks: &[u64; 4]) -> [u8; 4]
    ensures { result ≡ map ones marks.now }
{
    marks.map(total_of)
}
