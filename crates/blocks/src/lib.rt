// Writing and reading of the dump of a soft page: 01, "The dump". A byte of a block is a soft value, a fixed or zero byte, or one of the two of the check. Writing goes byte by byte, by
// `holds_value` and `fixed_byte`; reading takes a block's values in one piece, by `values_of`. Lengths and block numbers are asked of the caller; the crate `store_dumps`
// has the calls that test them.
#![tactic(auto)]

ghost use Rattle.std.specs.Prelude.{◌≡◌, ◌+◌, ◌<◌, ◌≤◌, length};
ghost use Rattle.dump.specs.Check.{check_of};
ghost use Rattle.dump.specs.Block.{holds_value, fixed_byte, body_byte, block_of, fixed_right, check_right};
ghost use Rattle.dump.specs.Parts.{values_of, fixed_from};
ghost use Rattle.dump.specs.Dump.{dump_of, block_at, soft_of};

// The check of a block's first 510 bytes: a 16-bit running sum by wrapping add.
pub fn check_of(block: &[u8]) -> u16
    requires { 510 ≤ length block.now }
    ensures { result ≡ check_of block.now }
{
    let mut sum: u16 = 0;
    for k in 0..510 {
        let term = (k as u32 + 1) * u32::from(block[k]);
        sum = sum.wrapping_add((term % 65536) as u16);
    }
    sum
}

// Whether byte k of block b is a soft value.
fn holds_value(b: usize, k: usize) -> bool
    requires { b < 4 }
    ensures { result ≡ holds_value b k }
{
    16 <= k && k < 496 && b * 480 + (k - 16) < 1890
}

// What byte k, below 510, of block b is if it is no soft value.
fn fixed_byte(b: usize, k: usize) -> u8
    requires { b < 4 }
    ensures { result ≡ fixed_byte b k }
{
    match k {
        0 => b'P',
        1 => b'G',
        2 => b as u8,
        _ => 0,
    }
}

// Byte k, below 510, of block b of the dump of a soft page.
fn body_byte(soft: &[u8], b: usize, k: usize) -> u8
    requires { (length soft.now ≡ 1890) × (b < 4) }
    ensures { result ≡ body_byte soft.now b k }
{
    if holds_value(b, k) {
        soft[b * 480 + (k - 16)]
    } else {
        fixed_byte(b, k)
    }
}

// Writes block b of the dump of a soft page.
fn write_block(soft: &[u8], b: usize, out: &mut [u8])
    requires { (length soft.now ≡ 1890) × (b < 4) × (length out.old ≡ 512) }
    ensures { out.new ≡ block_of soft.now b }
{
    for k in 0..510 {
        out[k] = body_byte(soft, b, k);
    }
    let [high, low] = check_of(out).to_be_bytes();
    out[510] = high;
    out[511] = low;
}

// Writes the dump of a soft page.
pub fn write(soft: &[u8], out: &mut [u8])
    requires { (length soft.now ≡ 1890) × (length out.old ≡ 2048) }
    ensures { out.new ≡ dump_of soft.now }
{
    for b in 0..4 {
        let start = b * 512;
        write_block(soft, b, &mut out[start..start + 512]);
    }
}

// Block b of a dump.
pub fn block_at(dump: &[u8], b: usize) -> &[u8]
    requires { (length dump.now ≡ 2048) × (b < 4) }
    ensures { result.now ≡ block_at dump.now b }
{
    let start = b * 512;
    &dump[start..start + 512]
}

// How many soft values block b holds: 16 columns of 30, in the last block 15.
fn values_of(b: usize) -> usize
    requires { b < 4 }
    ensures { result ≡ values_of b }
{
    480 - b / 3 * 30
}

// Whether the n bytes of block b from byte `start` on, none of them a soft value, are right.
fn fixed_from(block: &[u8], b: usize, start: usize, n: usize) -> bool
    requires { (length block.now ≡ 512) × (b < 4) × (start + n ≤ 510) }
    ensures { result ≡ fixed_from block.now b start n }
{
    for k in 0..n {
        let at = start + k;
        if block[at] != fixed_byte(b, at) {
            return false;
        }
    }
    true
}

// Question 7: whether the fixed and zero bytes of block b are right, those before its values and those behind them.
pub fn fixed_right(block: &[u8], b: usize) -> bool
    requires { (length block.now ≡ 512) × (b < 4) }
    ensures { result ≡ fixed_right block.now b }
{
    let values = values_of(b);
    fixed_from(block, b, 0, 16) && fixed_from(block, b, 16 + values, 494 - values)
}

// Question 8: whether the check of a block is right.
pub fn check_right(block: &[u8]) -> bool
    requires { length block.now ≡ 512 }
    ensures { result ≡ check_right block.now }
{
    u16::from_be_bytes([block[510], block[511]]) == check_of(block)
}

// Copies a slice into one of its length, a byte after the other: the station's archive is to need no more of the C library than it says.
fn copy(from: &[u8], to: &mut [u8])
    requires { length to.old ≡ length from.now }
    ensures { to.new ≡ from.now }
{
    for k in 0..from.len() {
        to[k] = from[k];
    }
}

// Reads the soft values of a dump, block by block.
pub fn read(dump: &[u8], out: &mut [u8])
    requires { (length dump.now ≡ 2048) × (length out.old ≡ 1890) }
    ensures { out.new ≡ soft_of dump.now }
{
    for b in 0..4 {
        let n = values_of(b);
        let start = b * 512 + 16;
        let at = b * 480;
        copy(&dump[start..start + n], &mut out[at..at + n]);
    }
}
