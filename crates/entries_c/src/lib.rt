// The test entries for C, exported: each calls the function of crates/entries of its name, with its clauses. tests/run-vectors links this archive.
#![tactic(auto)]

ghost use Rattle.std.specs.Prelude.{◌≡◌, ◌*◌, ◌<◌, length};
ghost use Rattle.store_columns.specs.Columns.{encode_answer, level_word_answer, reimage_answer};
ghost use Rattle.trellis.specs.Demand.{whole, supercode};
ghost use Rattle.trellis.specs.TwoWords.{off, on};
ghost use Rattle.searches.specs.Searches.{search_answer};
ghost use Rattle.reedsolomon.specs.Row.{outer_answer, encoded_row, word_of};
ghost use Rattle.dump.specs.Dump.{dump_of, soft_of};
ghost use Rattle.reedsolomon.specs.ShortRows.{short_roots};
ghost use Rattle.store_rows.specs.Rows.{encode_row_answer, decode_row_answer};
ghost use Rattle.store_dumps.specs.Dumps.{write_answer, read_answer};
ghost use Rattle.entries.specs.Told.{told_of, found_of, Replied, PageReplied};
ghost use Rattle.concatenated.specs.Format.{short_page};
ghost use Rattle.concatenated.specs.Places.{placed_at};
ghost use Rattle.concatenated.specs.SoftPage.{column_part};
ghost use Rattle.concatenated.specs.Written.{written_page};
ghost use Rattle.concatenated.specs.OuterCode.{short_encoder};
ghost use Rattle.page.specs.Outcomes.{data_buffer, symbol_buffer};
ghost use Rattle.store_pages.specs.Pages.{encode_page_answer};
ghost use Rattle.store_pages.specs.Committing.{commit_answer, held_bytes};

use entries::{Found, PageReply, Reply, Told};

#[unsafe(no_mangle)]
pub extern "C" fn entry_encode_column(symbols: &[u8]) -> Told
    ensures { result ≡ told_of (encode_answer symbols.now) }
{
    entries::entry_encode_column(symbols)
}

#[unsafe(no_mangle)]
pub extern "C" fn entry_level_word(level: u64, symbol: u64) -> Told
    ensures { result ≡ told_of (level_word_answer level symbol) }
{
    entries::entry_level_word(level, symbol)
}

#[unsafe(no_mangle)]
pub extern "C" fn entry_reimage(level: u64, column: u64) -> Told
    ensures { result ≡ told_of (reimage_answer level column) }
{
    entries::entry_reimage(level, column)
}

#[unsafe(no_mangle)]
pub extern "C" fn entry_search_whole(level: u64, soft: &[u8], limit: u64) -> Found
    ensures { result ≡ found_of (search_answer off whole level soft.now limit) }
{
    entries::entry_search_whole(level, soft, limit)
}

#[unsafe(no_mangle)]
pub extern "C" fn entry_search_supercode(level: u64, soft: &[u8], limit: u64) -> Found
    ensures { result ≡ found_of (search_answer off supercode level soft.now limit) }
{
    entries::entry_search_supercode(level, soft, limit)
}

#[unsafe(no_mangle)]
pub extern "C" fn entry_search_whole_list(
    level: u64,
    soft: &[u8],
    limit: u64,
    threshold: i64,
) -> Found
    ensures { result ≡ found_of (search_answer (on threshold) whole level soft.now limit) }
{
    entries::entry_search_whole_list(level, soft, limit, threshold)
}

#[unsafe(no_mangle)]
pub extern "C" fn entry_search_supercode_list(
    level: u64,
    soft: &[u8],
    limit: u64,
    threshold: i64,
) -> Found
    ensures { result ≡ found_of (search_answer (on threshold) supercode level soft.now limit) }
{
    entries::entry_search_supercode_list(level, soft, limit, threshold)
}

#[unsafe(no_mangle)]
pub extern "C" fn entry_encode_row(level: u64, data: &[u8], out: &mut [u8]) -> Reply
    ensures { Replied (encode_row_answer level «data».now out.old) (encoded_row 6 67 63 (short_roots level) «data».now) out.old result out.new }
{
    entries::entry_encode_row(level, data, out)
}

#[unsafe(no_mangle)]
pub extern "C" fn entry_decode_row(
    level: u64,
    symbols: &[u8],
    marks: &[u8],
    out: &mut [u8],
) -> Reply
    ensures { Replied (decode_row_answer level symbols.now marks.now out.old)
        (word_of out.old (outer_answer 6 67 63 (short_roots level) symbols.now marks.now)) out.old result out.new }
{
    entries::entry_decode_row(level, symbols, marks, out)
}

#[unsafe(no_mangle)]
pub extern "C" fn entry_write_dump(soft: &[u8], out: &mut [u8]) -> Reply
    ensures { Replied (write_answer soft.now out.old) (dump_of soft.now) out.old result out.new }
{
    entries::entry_write_dump(soft, out)
}

#[unsafe(no_mangle)]
pub extern "C" fn entry_read_dump(dump: &[u8], out: &mut [u8]) -> Reply
    ensures { Replied (read_answer dump.now out.old) (soft_of dump.now) out.old result out.new }
{
    entries::entry_read_dump(dump, out)
}

#[unsafe(no_mangle)]
pub extern "C" fn entry_encode_page(data: &[u8], out: &mut [u8]) -> Reply
    ensures { Replied (encode_page_answer «data».now out.old) (written_page short_page short_encoder «data».now) out.old result out.new }
{
    entries::entry_encode_page(data, out)
}

#[unsafe(no_mangle)]
pub extern "C" fn entry_decode_page(soft: &[u8], limit: u64, data: &mut [u8]) -> PageReply
    ensures { PageReplied data_buffer off supercode soft.now limit «data».old result «data».new }
{
    entries::entry_decode_page(soft, limit, data)
}

#[unsafe(no_mangle)]
pub extern "C" fn entry_decode_page_whole(soft: &[u8], limit: u64, data: &mut [u8]) -> PageReply
    ensures { PageReplied data_buffer off whole soft.now limit «data».old result «data».new }
{
    entries::entry_decode_page_whole(soft, limit, data)
}

#[unsafe(no_mangle)]
pub extern "C" fn entry_ask_page(soft: &[u8], limit: u64, symbols: &mut [u8]) -> PageReply
    ensures { PageReplied symbol_buffer off supercode soft.now limit symbols.old result symbols.new }
{
    entries::entry_ask_page(soft, limit, symbols)
}

#[unsafe(no_mangle)]
pub extern "C" fn entry_ask_page_whole(soft: &[u8], limit: u64, symbols: &mut [u8]) -> PageReply
    ensures { PageReplied symbol_buffer off whole soft.now limit symbols.old result symbols.new }
{
    entries::entry_ask_page_whole(soft, limit, symbols)
}

#[unsafe(no_mangle)]
pub extern "C" fn entry_decode_page_list(
    soft: &[u8],
    limit: u64,
    threshold: i64,
    data: &mut [u8],
) -> PageReply
    ensures { PageReplied data_buffer (on threshold) supercode soft.now limit «data».old result «data».new }
{
    entries::entry_decode_page_list(soft, limit, threshold, data)
}

#[unsafe(no_mangle)]
pub extern "C" fn entry_decode_page_whole_list(
    soft: &[u8],
    limit: u64,
    threshold: i64,
    data: &mut [u8],
) -> PageReply
    ensures { PageReplied data_buffer (on threshold) whole soft.now limit «data».old result «data».new }
{
    entries::entry_decode_page_whole_list(soft, limit, threshold, data)
}

#[unsafe(no_mangle)]
pub extern "C" fn entry_ask_page_list(
    soft: &[u8],
    limit: u64,
    threshold: i64,
    symbols: &mut [u8],
) -> PageReply
    ensures { PageReplied symbol_buffer (on threshold) supercode soft.now limit symbols.old result symbols.new }
{
    entries::entry_ask_page_list(soft, limit, threshold, symbols)
}

#[unsafe(no_mangle)]
pub extern "C" fn entry_ask_page_whole_list(
    soft: &[u8],
    limit: u64,
    threshold: i64,
    symbols: &mut [u8],
) -> PageReply
    ensures { PageReplied symbol_buffer (on threshold) whole soft.now limit symbols.old result symbols.new }
{
    entries::entry_ask_page_whole_list(soft, limit, threshold, symbols)
}

#[unsafe(no_mangle)]
pub extern "C" fn entry_commit_page(symbols: &[u8], data: &mut [u8]) -> Reply
    ensures { Replied (commit_answer symbols.now «data».old) (held_bytes symbols.now) «data».old result «data».new }
{
    entries::entry_commit_page(symbols, data)
}

// The part of the page that the look-up hands back: its contents, and where in the page it lies.
#[unsafe(no_mangle)]
pub extern "C" fn entry_column_of<'a>(page: &'a [u8], j: usize, part: &mut &'a [u8])
    ensures part_after { part.new.now ≡ column_part short_page page.now j }
    ensures placed_at { length page.now ≡ 1890 → j < 63 → placed_at part.new.ref_ptr page.entry.ref_ptr (j * 30) }
{
    entries::entry_column_of(page, j, part);
}
