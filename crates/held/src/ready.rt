// Whether a search can go on from where it stands: the test of a state that perhaps no search made.
ghost use Rattle.std.specs.Prelude.{ℕ, ◌≤◌, ◌<◌, true, ◌↔◌, ◌≡◌};
ghost use Rattle.stack.specs.Places.{path_key};
ghost use Rattle.extension.specs.Steps.{Good};
ghost use Rattle.held.specs.Entry.{paths_of};
ghost use Rattle.held.specs.State.{Placed, Ready};

use crate::Held;
use stack::Path;

// Whether a key is one of a path of at most 30 bits: none above the length, and the sum at most 60 a bit from zero.
#[tactic(auto, using(crate::proofs::Testing::too_long_is_not_good))]
fn is_good(path: Path) -> bool
    ensures { (result ≡ true) ↔ Good 30 (path_key path) }
{
    if 30 < path.len {
        return false;
    }
    if path.bits >> path.len != 0 {
        return false;
    }
    let most = i16::from(path.len) * 60;
    if path.sum < -most {
        return false;
    }
    path.sum <= most
}

// Whether the path at a place has 1..30 bits and does not stand before the one above it.
fn is_placed(held: &Held, j: usize) -> bool
    requires { j < 2002 }
    ensures { (result ≡ true) ↔ Placed (paths_of held.now) j }
{
    let path = held.path(j);
    path.len != 0 && is_good(path) && (j == 0 || !path.stands_before(held.path((j - 1) / 4)))
}

// Whether all paths are so.
fn all_placed(held: &Held) -> bool
    requires { held.now.paths ≤ 2002 }
    ensures { (result ≡ true) ↔ ((j : ℕ) → j < held.now.paths → Placed (paths_of held.now) j) }
{
    for j in 0..held.paths {
        if !is_placed(held, j) {
            return false;
        }
    }
    true
}

// Whether a held search can go on: a level, a column of values 0..7, and a state that stands.
pub fn is_ready(held: &Held) -> bool
    requires { held.now.limit ≤ 2000 }
    ensures { (result ≡ true) ↔ Ready held.now }
{
    held.level < 4
        && 30 <= questions::first_above(&held.column, 7)
        && held.paths as u64 <= held.limit
        && is_good(held.last_taken())
        && all_placed(held)
}
