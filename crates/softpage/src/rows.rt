// What a decoded row does to the columns: its level words are taken off.
ghost use Rattle.std.specs.Prelude.{◌≡◌, ◌-◌, ◌<◌, ◌≤◌, length};
ghost use Rattle.column.specs.Shape.{short};
ghost use Rattle.reedsolomon.specs.Search.{WordOf};
ghost use Rattle.packing.specs.Packing.{digit};
ghost use Rattle.concatenated.specs.Soft.{taken_off_by};
ghost use Rattle.concatenated.specs.SoftPage.{Soft, column_off};
ghost use Rattle.concatenated.specs.Decode.{row_off};
ghost use Rattle.concatenated.specs.Arrays.{SoftColumns};

// The soft value at a place with a word's bit there taken off: 7 - q is q with its three bits exchanged, and no branch is on the word's bit.
// The word is cut to 32 bits, so that more values are worked on at a time.
fn value_off(w: u64, p: usize, q: u8) -> u8
    requires { (p < 30) × (q ≤ 7) }
    ensures { result ≡ taken_off_by (digit 2 (29 - p) w) q }
{
    let v = (w % 4294967296) as u32;
    let bit = ((v >> (29 - p)) % 2) as u8;
    q ^ (bit * 7)
}

// A soft column with a word taken off.
fn column_off(w: u64, column: [u8; 30]) -> [u8; 30]
    requires { Soft column }
    ensures { result ≡ column_off w column }
{
    let mut out = [0u8; 30];
    for p in 0..30 {
        out[p] = value_off(w, p, column[p]);
    }
    out
}

// Takes the level words of a row's symbols off the columns.
pub fn take_off(work: &mut [[u8; 30]; 63], level: usize, row: &[u8; 63])
    requires { (level < 4) × SoftColumns work.old × WordOf 64 63 row.now }
    ensures { work.new ≡ row_off short level row.now work.old }
{
    for j in 0..63 {
        let w = column::level_word(level, u64::from(row[j]));
        work[j] = column_off(w, work[j]);
    }
}
