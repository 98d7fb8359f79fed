// Data as bytes and as symbols: three bytes to four symbols, in groups that run on across the borders of rows.
ghost use Rattle.std.specs.Prelude.{◌≡◌, length};
ghost use Rattle.reedsolomon.specs.Search.{WordOf};
ghost use Rattle.concatenated.specs.Format.{short_page};
ghost use Rattle.concatenated.specs.Data.{data_symbols, data_bytes};
ghost use Rattle.concatenated.specs.Written.{rows_data};
ghost use Rattle.concatenated.specs.Symbols.{row_after_row, rows_in};
ghost use Rattle.concatenated.specs.Arrays.{Rows};

use syndromes::lists;

// The symbols of the data.
pub fn symbols_of(data: &[u8], out: &mut [u8; 200])
    requires { length «data».now ≡ 150 }
    ensures { out.new ≡ data_symbols short_page «data».now }
{
    for g in 0..50 {
        let from = g * 3;
        let to = g * 4;
        let s = packing::unpack([data[from], data[from + 1], data[from + 2]]);
        out[to] = s[0];
        out[to + 1] = s[1];
        out[to + 2] = s[2];
        out[to + 3] = s[3];
    }
}

// The data of the symbols.
pub fn bytes_of(symbols: &[u8; 200], out: &mut [u8])
    requires { WordOf 64 200 symbols.now × (length out.old ≡ 150) }
    ensures { out.new ≡ data_bytes short_page symbols.now }
{
    for g in 0..50 {
        let from = g * 4;
        let to = g * 3;
        let b = packing::pack([
            symbols[from],
            symbols[from + 1],
            symbols[from + 2],
            symbols[from + 3],
        ]);
        out[to] = b[0];
        out[to + 1] = b[1];
        out[to + 2] = b[2];
    }
}

// The rows, one behind the other.
pub fn row_after_row(rows: &[[u8; 63]; 4], out: &mut [u8])
    requires { Rows rows.now × (length out.old ≡ 252) }
    ensures { out.new ≡ row_after_row rows.now }
{
    for (level, row) in rows.iter().enumerate() {
        lists::put(row, 63, level * 63, out);
    }
}

// The data symbols in front of the rows in a buffer.
pub fn rows_data(symbols: &[u8], out: &mut [u8])
    requires { WordOf 64 252 symbols.now × (length out.old ≡ 200) }
    ensures { out.new ≡ rows_data short_page (rows_in short_page symbols.now) 4 }
{
    let mut at = 0;
    for level in 0..4 {
        let from = level * 63;
        let n = 63 - outer::roots(level);
        lists::put(&symbols[from..from + 63], n, at, out);
        at += n;
    }
}
