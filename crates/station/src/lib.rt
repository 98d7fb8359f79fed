// The station's C interface: 01, "The station's interface", and 02, points 1, 7 and 9. Eight entries on byte slices, thin over the public calls; c/station.h declares them.
// Each returns number + 256 · place, 0 for success, and a refused one changes no byte that it was lent.
#![tactic(auto)]

ghost use Rattle.std.specs.Prelude.{◌++◌, ◌≡◌, ◌≤◌, length, take};
ghost use Rattle.dump.specs.Dump.{soft_of};
ghost use Rattle.concatenated.specs.Data.{digits};
ghost use Rattle.concatenated.specs.Format.{short_page};
ghost use Rattle.concatenated.specs.Written.{written_page};
ghost use Rattle.concatenated.specs.OuterCode.{short_encoder};
ghost use Rattle.store_pages.specs.Pages.{encode_page_answer, default_limit};
ghost use Rattle.store_dumps.specs.Dumps.{read_answer};
ghost use Rattle.questions.specs.Answer.{number, place};
ghost use Rattle.questions.specs.Number.{number_of};
ghost use Rattle.station.specs.Returned.{returned, Returned};
ghost use Rattle.station.specs.Report.{mark_bytes, steps_and_totals, low_bytes};
ghost use Rattle.station.specs.PageReturned.{own_lengths, report_after, PageDecodedForC, PageAskedForC, ListDecodedForC};
ghost use Rattle.store_pages.specs.Committing.{commit_answer, held_bytes};

use page::Report;
use questions::refusal::{Question, Refusal};
use store_pages::DEFAULT_LIMIT;

// A refusal's number and place as one number.
fn returned_refusal(refusal: Refusal) -> u64
    requires { (number_of refusal.question ≤ 14) × (refusal.place ≤ 1890) }
    ensures { result ≡ returned (number_of refusal.question) refusal.place }
{
    refusal.question.number() + 256 * refusal.place
}

fn returned_outcome(outcome: Result<(), Refusal>) -> u64
    requires { (number outcome ≤ 14) × (place outcome ≤ 1890) }
    ensures { result ≡ returned (number outcome) (place outcome) }
{
    match outcome {
        Ok(()) => 0,
        Err(refusal) => returned_refusal(refusal),
    }
}

// Writes the page of 150 bytes of data into `page`, of 252 bytes. Refused by 1 and 2.
#[unsafe(no_mangle)]
pub extern "C" fn station_encode_page(data: &[u8], page: &mut [u8]) -> u64
    ensures { Returned (encode_page_answer «data».now page.old) (written_page short_page short_encoder «data».now) page.old result page.new }
{
    returned_outcome(store_pages::encode_page(data, page))
}

// Reads the soft page of a dump of 2,048 bytes into `soft`, of 1,890 bytes. Refused by 1, 2, 7, 8 and 5.
#[unsafe(no_mangle)]
pub extern "C" fn station_read_dump(dump: &[u8], soft: &mut [u8]) -> u64
    ensures { Returned (read_answer dump.now soft.old) (soft_of dump.now) soft.old result soft.new }
{
    returned_outcome(store_dumps::read_dump(dump, soft))
}

// The report's first 12 bytes: the steps in four, high byte first; then each level's changed and erased total.
fn steps_and_totals(report: Report) -> [u8; 12]
    ensures { result ≡ steps_and_totals report }
{
    let [_, _, _, _, n3, n2, n1, n0] = report.steps.to_be_bytes();
    let c = report.changed;
    let e = report.erased;
    [
        n3, n2, n1, n0, c[0], e[0], c[1], e[1], c[2], e[2], c[3], e[3],
    ]
}

// A mark in eight bytes, high byte first.
fn write_mark(mark: u64, out: &mut [u8])
    requires { length out.old ≡ 8 }
    ensures { out.new ≡ digits 256 8 mark }
{
    out.copy_from_slice(&mark.to_be_bytes());
}

// The report's next 64 bytes: each level's mark of the changed columns, then that of the erased ones.
fn write_marks(changed: [u64; 4], erased: [u64; 4], out: &mut [u8])
    requires { length out.old ≡ 76 }
    ensures { out.new ≡ take 12 out.old ++ mark_bytes 4 changed erased }
{
    for level in 0..4 {
        let first = 12 + 16 * level;
        let second = first + 8;
        let end = second + 8;
        write_mark(changed[level], &mut out[first..second]);
        write_mark(erased[level], &mut out[second..end]);
    }
}

// The report's last two bytes: the low point, two's complement.
fn write_low(low: i16, out: &mut [u8])
    requires { length out.old ≡ 2 }
    ensures { out.new ≡ low_bytes low }
{
    out.copy_from_slice(&low.cast_unsigned().to_be_bytes());
}

// The lengths that a page entry asks about itself: the soft page's and the report's.
fn lengths_asked(soft: usize, report: usize) -> Result<(), Refusal>
    ensures { result ≡ own_lengths soft report }
{
    questions::ask(soft == 1890, Question::InputLength, 0)?;
    questions::ask(report == 78, Question::OutputLength, 0)
}

// Writes the report of an answered page, and returns the number and place of the outcome.
fn returned_page(outcome: Result<Report, Refusal>, report: &mut [u8]) -> u64
    requires { (number outcome ≤ 14) × (place outcome ≤ 1890) × (length report.old ≡ 78) }
    ensures { (result ≡ returned (number outcome) (place outcome)) × (report.new ≡ report_after report.old outcome) }
{
    match outcome {
        Ok(told) => {
            let changed = told.changed_marks;
            let erased = told.erased_marks;
            let low = told.low;
            let front = steps_and_totals(told);
            report[0..12].copy_from_slice(&front);
            write_marks(changed, erased, &mut report[0..76]);
            write_low(low, &mut report[76..78]);
            0
        }
        Err(refusal) => returned_refusal(refusal),
    }
}

// Decodes a soft page of 1,890 values, by the supercode search with the given limit, into `data`, of 150 bytes, and `report`, of 78. Refused by 1, 2, 4, 5 and 10, whose place is the level.
#[unsafe(no_mangle)]
pub extern "C" fn station_decode_page_limit(
    soft: &[u8],
    limit: u64,
    data: &mut [u8],
    report: &mut [u8],
) -> u64
    ensures { PageDecodedForC soft.now limit «data».old report.old result «data».new report.new }
{
    if let Err(refusal) = lengths_asked(soft.len(), report.len()) {
        return returned_refusal(refusal);
    }
    returned_page(store_pages::decode_page(soft, limit, data), report)
}

// The same with the default limit. Refused by 1, 2, 5 and 10.
#[unsafe(no_mangle)]
pub extern "C" fn station_decode_page(soft: &[u8], data: &mut [u8], report: &mut [u8]) -> u64
    ensures { PageDecodedForC soft.now default_limit «data».old report.old result «data».new report.new }
{
    station_decode_page_limit(soft, DEFAULT_LIMIT, data, report)
}

// `station_decode_page_limit` with list of two and its threshold. Refused by 1, 2, 4, 11, 5 and 10.
#[unsafe(no_mangle)]
pub extern "C" fn station_decode_page_list(
    soft: &[u8],
    limit: u64,
    threshold: i64,
    data: &mut [u8],
    report: &mut [u8],
) -> u64
    ensures { ListDecodedForC threshold soft.now limit «data».old report.old result «data».new report.new }
{
    if let Err(refusal) = lengths_asked(soft.len(), report.len()) {
        return returned_refusal(refusal);
    }
    returned_page(
        store_pages::decode_page_list(soft, limit, threshold, data),
        report,
    )
}

// Asks what `station_decode_page_limit` would give: the report or refusal, and in place of the data the 252 corrected symbols, row after row. Refused by 1, 2, 4, 5 and 10.
#[unsafe(no_mangle)]
pub extern "C" fn station_ask_page_limit(
    soft: &[u8],
    limit: u64,
    symbols: &mut [u8],
    report: &mut [u8],
) -> u64
    ensures { PageAskedForC soft.now limit symbols.old report.old result symbols.new report.new }
{
    if let Err(refusal) = lengths_asked(soft.len(), report.len()) {
        return returned_refusal(refusal);
    }
    returned_page(store_pages::ask_page(soft, limit, symbols), report)
}

// The same with the default limit. Refused by 1, 2, 5 and 10.
#[unsafe(no_mangle)]
pub extern "C" fn station_ask_page(soft: &[u8], symbols: &mut [u8], report: &mut [u8]) -> u64
    ensures { PageAskedForC soft.now default_limit symbols.old report.old result symbols.new report.new }
{
    station_ask_page_limit(soft, DEFAULT_LIMIT, symbols, report)
}

// Writes into `data`, of 150 bytes, what the four rows of 252 symbols hold, whoever filled them. Refused by 1, 2, 5 and 14, whose place is the lowest level whose row is no word of its outer code.
#[unsafe(no_mangle)]
pub extern "C" fn station_commit_page(symbols: &[u8], data: &mut [u8]) -> u64
    ensures { Returned (commit_answer symbols.now «data».old) (held_bytes symbols.now) «data».old result «data».new }
{
    returned_outcome(store_pages::commit_page(symbols, data))
}
