// The extensions of a path: 01, "The search". The stack is crate `stack`.
//
// The path just made is not put in and taken out again: it is compared with the root, and exchanged with it only where the root stands before.
// Where a check is there, one extension at most exists, and its bit is the parity under the mask: a mask is 0 or odd.
//
// What comes out of `exchange` or `pop` stands after none that stay, and by `first_is_head` it is the head of the list of the specification, which is in the order.
// `advance` therefore does to the heap what `grow` and taking the head do to the list.
// Every path on the stack has at most n bits, n at most 42, so that ranks order them (`Good`).
// A sum is within 60 a bit of zero (`Good`), so it fits 16 bits.
#![tactic(auto)]

ghost use Rattle.std.specs.Prelude.{◌+◌, ◌-◌, ◌*◌, ◌/◌, ◌%◌, ◌<◌, cond, ◌&&◌, not, ◌≡◌, eqb, pos, get_or};
ghost use Rattle.column.specs.Mask.{parity};
ghost use Rattle.heap.specs.Heap.{Every};
ghost use Rattle.stack.specs.Places.{path_key, places};
ghost use Rattle.extension.specs.Steps.{Good, Held, Advanced};
ghost use Rattle.extension.specs.Lent.{GivenBy, nodes_of};

use stack::{Path, Stack};

// What a search is given: a soft column of n values, a mask of each of two codes for each bit, and a table of values.
#[derive(Drop)]
pub struct Trellis<'a> {
    pub n: u8,
    pub col: &'a [u8],
    pub left: &'a [u64],
    pub right: &'a [u64],
    pub values: &'a [i16; 16],
}

// 1 where an odd number of a path's bits are under a mask, else 0. The halves are added first: a parity of 32 bits is two instructions, while two of
// 64 bits at once are worked out as counts.
pub fn parity_under(b: u64, m: u64) -> u64
    ensures { (result ≡ parity m b) × (result < 2) }
{
    let x = b & m;
    let y = ((x ^ (x >> 32)) % 4294967296) as u32;
    u64::from(y.count_ones() % 2)
}

// The bit that a soft value reads as. Its extension is made first: it is mostly the better one.
pub fn read_bit(q: u8) -> u64
    ensures { (result < 2) × (result ≡ q / 4 % 2) }
{
    u64::from(q / 4 % 2)
}

// What a soft value gives to a bit.
pub fn value_of(values: &[i16; 16], q: u8, bit: u64) -> i16
    requires { (q < 8) × (bit < 2) }
    ensures { result ≡ get_or values.now (bit * 8 + q) (pos 0) }
{
    values[bit as usize * 8 + usize::from(q)]
}

// What a soft value gives to the other bit: its entry stands eight places away.
pub fn other_value(values: &[i16; 16], q: u8, bit: u64) -> i16
    requires { (q < 8) × (bit < 2) }
    ensures { result ≡ get_or values.now ((1 - bit) * 8 + q) (pos 0) }
{
    values[(bit as usize * 8 + usize::from(q)) ^ 8]
}

// Whether no check is there.
pub fn unchecked(x: u64, y: u64) -> bool
    ensures { result ≡ (eqb x 0 && eqb y 0) }
{
    x == 0 && y == 0
}

// Whether two checks ask for different bits.
pub fn conflicting(x: u64, y: u64, u: u64, v: u64) -> bool
    ensures { result ≡ (not (eqb x 0) && (not (eqb y 0) && not (eqb u v))) }
{
    x != 0 && y != 0 && u != v
}

// One of two bits, or 0: the bit that the checks ask for, where a check that is not there asks for 0.
pub fn asked_bit(u: u64, v: u64) -> u64
    requires { (u < 2) × (v < 2) }
    ensures { result ≡ cond (eqb u 0) v 1 }
{
    u | v
}

// The existing extensions of a path go in, if it is shorter than a word, and the first path of all comes out.
pub fn advance(stack: &mut Stack, trellis: &Trellis, path: Path) -> Option<Path>
    requires room { stack.old.paths < 2002 }
    requires given { GivenBy trellis.now }
    requires good { Good trellis.now.n (path_key path) }
    requires every { Every (Held trellis.now.n) (places stack.old) stack.old.paths }
    ensures { Advanced (nodes_of trellis.now) trellis.now.n (places stack.old) (places stack.new)
        stack.old.paths stack.new.paths (path_key path) result }
{
    if path.len == trellis.n {
        return stack.pop();
    }
    let j = path.len as usize;
    let q = trellis.col[j];
    let x = trellis.left[j];
    let y = trellis.right[j];
    if unchecked(x, y) {
        let bit = read_bit(q);
        stack.push(path.extended(1 - bit, other_value(trellis.values, q, bit)));
        return Some(stack.exchange(path.extended(bit, value_of(trellis.values, q, bit))));
    }
    let u = parity_under(path.bits * 2, x);
    let v = parity_under(path.bits * 2, y);
    if conflicting(x, y, u, v) {
        return stack.pop();
    }
    let bit = asked_bit(u, v);
    Some(stack.exchange(path.extended(bit, value_of(trellis.values, q, bit))))
}
