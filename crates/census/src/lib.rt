// A census of flips: 02, point 14. Every pattern of so many flips on the all-zero column is searched, and the answers are counted.
//
// The argument. The patterns of k ones among n bits begin with a one or with a zero: that is how they are defined and how the code goes through them, so each is searched once.
// The search asks nothing of what its stack holds, so one serves the whole census.
#![tactic(auto)]

ghost use Rattle.std.specs.Prelude.{[], ◌∷◌, ◌≡◌, ◌+◌, ◌-◌, ◌^◌, ◌<◌, take};
ghost use Rattle.search.specs.Outcomes.{SupercodesBelow};
ghost use Rattle.searches.specs.Searches.{Allowed};
ghost use Rattle.census.specs.Census.{census_limit, ends_in, totals, census, together, census_behind, UnflippedFrom};

use stack::Stack;
use std::ops::Add;

// How many patterns end in the zero word, in another word, and spent.
#[derive(Clone, Copy, Default)]
pub struct Totals {
    pub zero: u64,
    pub other: u64,
    pub spent: u64,
}

// The limit that 02 names for the census, whatever the default is.
const LIMIT: u64 = 200;

// The totals of one column.
fn search_one(stack: &mut Stack, masks: &[[u64; 30]; 8], level: usize, column: &[u8]) -> Totals
    requires { SupercodesBelow 4 masks.now × Allowed level column.now census_limit }
    ensures { result ≡ totals (ends_in level) (column.now ∷ []) }
{
    match searches::search_supercodes(stack, masks, column, level, LIMIT) {
        Ok(found) if found.word == 0 => Totals {
            zero: 1,
            ..Totals::default()
        },
        Ok(_) => Totals {
            other: 1,
            ..Totals::default()
        },
        Err(_) => Totals {
            spent: 1,
            ..Totals::default()
        },
    }
}

// Two totals together.
impl Add for Totals {
    type Output = Totals;

    ghost can_add = { λ a b. (a.zero + b.zero < 2 ^ 64) × (a.other + b.other < 2 ^ 64) × (a.spent + b.spent < 2 ^ 64) };

    ghost add_gives = { λ a b r. r ≡ together a b };

    fn add(self, b: Totals) -> Totals {
        Totals {
            zero: self.zero + b.zero,
            other: self.other + b.other,
            spent: self.spent + b.spent,
        }
    }
}

// The totals of the columns that begin as the given one and have so many flips from a position on, where the given one has none.
#[tactic(auto, using(crate::proofs::Behind::by_the_next))]
fn count_from(
    stack: &mut Stack,
    masks: &[[u64; 30]; 8],
    level: usize,
    column: [u8; 30],
    from: usize,
    ones: usize,
) -> Totals
    requires { SupercodesBelow 4 masks.now × UnflippedFrom level column from }
    ensures { result ≡ census_behind level (take from column) (30 - from) ones }
{
    if ones == 0 {
        return search_one(stack, masks, level, &column);
    }
    if from < 30 {
        let mut flipped = column;
        flipped[from] = 7;
        let with = count_from(stack, masks, level, flipped, from + 1, ones - 1);
        let without = count_from(stack, masks, level, column, from + 1, ones);
        return with + without;
    }
    Totals::default()
}

// The totals of a level and a number of ones. The stack and the masks are lent for the whole census; the stack may hold anything.
pub fn count_patterns(
    stack: &mut Stack,
    masks: &[[u64; 30]; 8],
    level: usize,
    ones: usize,
) -> Totals
    requires { SupercodesBelow 4 masks.now × (level < 4) }
    ensures { result ≡ census level ones }
{
    count_from(stack, masks, level, [0; 30], 0, ones)
}
