// The checker of listings: 02, point 11. One pass over the lines, one step of the search for each: a step is `extension::advance`, the stack is crate `stack`.
//
// The argument. `advance` takes the head of the list of the specification. While all lines are right, they are the paths taken, so that list is the stack that they leave, and a line is right
// if it is the path that the step takes. A line that is no path is never right: what a step takes has 1 to n bits, and no bit above its length.
// One path more at most is on the stack after a line, so 2,002 places suffice for 2,000 lines.
#![tactic(auto)]

pub mod short_page;

ghost use Rattle.std.specs.Prelude.{◌&&◌, ◌≡◌, eqb};
ghost use Rattle.trellis.specs.Values.{Values};
ghost use Rattle.extension.specs.Steps.{TableOf};
ghost use Rattle.extension.specs.Lent.{GivenBy};
ghost use Rattle.search.specs.Lent.{key_nodes_of};
ghost use Rattle.checker.specs.Judging.{code_verdict, judged_keys, Lines};

use extension::Trellis;
use stack::{Path, Stack};

// Whether a line's length and number are those of a path.
fn names(length: u64, number: u64, path: Path) -> bool
    ensures { result ≡ (eqb length path.len && eqb number path.bits) }
{
    length == u64::from(path.len) && number == path.bits
}

// The first wrong line, counted from 1, of a listing of the search for the first word of two trellises; none where the listing is accepted. The stack may hold anything.
// 02 gives a listing as two arrays, "a length and the bits as a number" of each line: so does the C interface, and so they come here.
pub fn judge(stack: &mut Stack, trellis: &Trellis, lengths: &[u64], numbers: &[u64]) -> Option<u64>
    requires lines { Lines lengths.now numbers.now }
    requires given { GivenBy trellis.now }
    ensures { (vs : Values) → TableOf vs trellis.now.values.now
        → result ≡ code_verdict (judged_keys (key_nodes_of vs trellis.now) lengths.now numbers.now) }
{
    stack.clear();
    let mut last = Path::EMPTY;
    for k in 0..lengths.len() {
        let line = k as u64 + 1;
        if last.len == trellis.n {
            return Some(line);
        }
        let Some(path) = extension::advance(stack, trellis, last) else {
            return Some(line);
        };
        if !names(lengths[k], numbers[k], path) {
            return Some(line);
        }
        last = path;
    }
    if last.len == trellis.n {
        return None;
    }
    Some(lengths.len() as u64 + 1)
}
