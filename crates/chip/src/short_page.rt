// The search of the short page's columns with 64 places: 30 bits, the two supercodes and the branch values of a level.
ghost use Rattle.std.specs.Prelude.{ℕ, ◌<◌, ◌≡◌};
ghost use Rattle.column.specs.Shape.{short};
ghost use Rattle.trellis.specs.Values.{level_values};
ghost use Rattle.trellis.specs.Demand.{supercode, supercode_trellis};
ghost use Rattle.trellis.specs.Bounded.{searched_within};
ghost use Rattle.search.specs.Outcomes.{TablesFor, Searchable30};
ghost use Rattle.chip.specs.Places.{Leading};
ghost use Rattle.chip.specs.Outcomes.{code_outcome};

use crate::{ChipOutcome, ChipStack};
use extension::Trellis;

// The supercode search of a soft column with 64 places, by the tables that are lent; anything may be on the stack.
pub fn search_column(stack: &mut ChipStack, trellis: &Trellis, limit: u64) -> ChipOutcome
    requires length { trellis.now.n ≡ 30 }
    requires searchable30 { Searchable30 trellis.now.col.now trellis.now.left.now trellis.now.right.now trellis.now.values.now }
    requires leading { Leading trellis.now.values.now }
    ensures { (i : ℕ) → i < 4 → TablesFor supercode i trellis.now.left.now trellis.now.right.now trellis.now.values.now
        → result ≡ code_outcome (searched_within 64 (supercode_trellis short (level_values i) trellis.now.col.now i) limit) }
{
    crate::search(stack, trellis, limit)
}
