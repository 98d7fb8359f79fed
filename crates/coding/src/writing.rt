// A written page: its columns from its rows, four bytes a column.
ghost use Rattle.std.specs.Prelude.{◌≡◌, ◌<◌, length};
ghost use Rattle.concatenated.specs.Format.{short_page};
ghost use Rattle.concatenated.specs.Written.{page_in_bytes};
ghost use Rattle.concatenated.specs.Arrays.{Rows};

// The bytes of the page of given rows.
pub fn write_columns(rows: &[[u8; 63]; 4], out: &mut [u8])
    requires { Rows rows.now × (length out.old ≡ 252) }
    ensures { out.new ≡ page_in_bytes short_page rows.now }
{
    let [r0, r1, r2, r3] = rows;
    for j in 0..63 {
        let w = column::encode(
            u64::from(r0[j]),
            u64::from(r1[j]),
            u64::from(r2[j]),
            u64::from(r3[j]),
        );
        let b = packing::column_bytes(w);
        let to = j * 4;
        out[to] = b[0];
        out[to + 1] = b[1];
        out[to + 2] = b[2];
        out[to + 3] = b[3];
    }
}
