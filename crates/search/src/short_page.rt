// The tables of the searches of the short page's columns: 30 bits, the branch values of the level.
ghost use Rattle.std.specs.Prelude.{◌<◌, ◌≡◌};
ghost use Rattle.trellis.specs.Values.{values as branch_values, level_values};
ghost use Rattle.extension.specs.Steps.{table_of};
ghost use Rattle.search.specs.Outcomes.{TablesFor, SupercodesBelow, search_of};

use extension::Trellis;

// 01's branch values as a table: the entry 8 b + q is what the soft value q gives to the bit b.
fn values() -> [i16; 16]
    ensures { result ≡ table_of branch_values }
{
    [
        2, // soft 0, bit 0
        1, // soft 1, bit 0
        -1, // soft 2, bit 0
        -5, // soft 3, bit 0
        -11, // soft 4, bit 0
        -20, // soft 5, bit 0
        -35, // soft 6, bit 0
        -60, // soft 7, bit 0
        -60, // soft 0, bit 1
        -35, // soft 1, bit 1
        -20, // soft 2, bit 1
        -11, // soft 3, bit 1
        -5, // soft 4, bit 1
        -1, // soft 5, bit 1
        1, // soft 6, bit 1
        2, // soft 7, bit 1
    ]
}

// The branch values of a level as a table: 01's, each raised by 2 · level (02, point 3).
pub fn level_values(level: usize) -> [i16; 16]
    requires { level < 4 }
    ensures { result ≡ table_of (level_values level) }
{
    let rise = (2 * level) as i16;
    let mut table = values();
    for k in 0..16 {
        table[k] += rise;
    }
    table
}

// The tables that a search at a level reads: the masks of the level's code and none, or of its two supercodes; and the level's branch values.
#[derive(Drop)]
pub struct Tables {
    pub left: [u64; 30],
    pub right: [u64; 30],
    pub values: [i16; 16],
}

impl Tables {
    // What the search of a column by them is given.
    pub fn trellis<'a>(&'a self, column: &'a [u8]) -> Trellis<'a>
        ensures { (result.n ≡ 30) × (result.col.now ≡ column.now) × (result.left.now ≡ self.now.left)
            × (result.right.now ≡ self.now.right) × (result.values.now ≡ self.now.values) }
    {
        Trellis {
            n: 30,
            col: column,
            left: &self.left,
            right: &self.right,
            values: &self.values,
        }
    }
}

// The tables of either search at a level. Made once a level and lent to the searches.
pub fn tables_of(level: usize, in_supercodes: bool) -> Tables
    requires { level < 4 }
    ensures { TablesFor (search_of in_supercodes) level result.left result.right result.values }
{
    let values = level_values(level);
    if in_supercodes {
        return Tables {
            left: column::masks::left_masks(level),
            right: column::masks::right_masks(level),
            values,
        };
    }
    Tables {
        left: column::masks::level_masks(level),
        right: column::masks::no_masks(),
        values,
    }
}

// The masks of the supercode search at every level: those of a level's first supercode at the level, those of its second four places on. Made once a batch and lent to its searches.
pub fn supercode_masks() -> [[u64; 30]; 8]
    ensures { SupercodesBelow 4 result }
{
    let mut masks = [[0u64; 30]; 8];
    for level in 0..4 {
        masks[level] = column::masks::left_masks(level);
        masks[level + 4] = column::masks::right_masks(level);
    }
    masks
}
