// The look-up of a column in a soft page, and a soft page as its columns.
ghost use Rattle.std.specs.Prelude.{◌≡◌, ◌*◌, ◌<◌, length};
ghost use Rattle.concatenated.specs.Format.{short_page};
ghost use Rattle.concatenated.specs.SoftPage.{column_part, soft_columns};
ghost use Rattle.concatenated.specs.Places.{placed_at};

// Column j of a soft page, as a part of the page itself; for a column above 62 or a page of another length the part is empty.
pub fn column_of(page: &[u8], j: usize) -> &[u8]
    ensures result_value { result.now ≡ column_part short_page page.now j }
    ensures placed_at { length page.now ≡ 1890 → j < 63 → placed_at result.ref_ptr page.entry.ref_ptr (j * 30) }
{
    if page.len() == 1890 {
        if j < 63 {
            let a = j * 30;
            let e = a + 30;
            return &page[a..e];
        }
    }
    &page[0..0]
}

// The columns of a soft page.
pub fn load(soft: &[u8], work: &mut [[u8; 30]; 63])
    requires { length soft.now ≡ 1890 }
    ensures { work.new ≡ soft_columns short_page soft.now }
{
    for j in 0..63 {
        work[j].copy_from_slice(column_of(soft, j));
    }
}
