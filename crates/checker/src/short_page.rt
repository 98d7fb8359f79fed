// The checker of listings of the searches of the short page's columns: 30 bits, the branch values of a level.
ghost use Rattle.std.specs.Prelude.{ℕ, ◌<◌, ◌≡◌};
ghost use Rattle.column.specs.Shape.{short};
ghost use Rattle.paths.specs.Listings.{judged};
ghost use Rattle.trellis.specs.Values.{level_values};
ghost use Rattle.trellis.specs.Demand.{Search, trellis};
ghost use Rattle.search.specs.Outcomes.{TablesFor, Searchable30};
ghost use Rattle.checker.specs.Lines.{listing_of};
ghost use Rattle.checker.specs.Judging.{code_verdict, Lines};

use extension::Trellis;
use stack::Stack;

// The first wrong line of a listing of either search of a soft column, by the tables that are lent; none where it is accepted. The stack may hold anything.
pub fn judge_column(
    stack: &mut Stack,
    lent: &Trellis,
    lengths: &[u64],
    numbers: &[u64],
) -> Option<u64>
    requires lines { Lines lengths.now numbers.now }
    requires length { lent.now.n ≡ 30 }
    requires searchable30 { Searchable30 lent.now.col.now lent.now.left.now lent.now.right.now lent.now.values.now }
    ensures { (s : Search) (i : ℕ) → i < 4 → TablesFor s i lent.now.left.now lent.now.right.now lent.now.values.now
        → result ≡ code_verdict (judged (trellis s short (level_values i) lent.now.col.now i) (listing_of 30 lengths.now numbers.now)) }
{
    crate::judge(stack, lent, lengths, numbers)
}
