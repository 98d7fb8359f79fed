// The program `readpage`: reads one dump from standard input and prints its page, or the refusal. 01, "The station's interface".
// The whole output is built in a buffer by functions with contracts, then written line by line.
#![tactic(auto)]

ghost use Rattle.std.specs.Prelude.{◌≡◌, true, ◌<◌, leb, length, OnOk, OnErr};
ghost use Rattle.std.specs.Io.KnownBytes.{Appends};
ghost use Rattle.io.specs.Counts.{IsPrefixLen};
ghost use Rattle.trellis.specs.Demand.{supercode};
ghost use Rattle.trellis.specs.TwoWords.{off};
ghost use Rattle.questions.specs.Questions.{first_above};
ghost use Rattle.questions.specs.Number.{number_of};
ghost use Rattle.store_pages.specs.Pages.{decoded_page, default_limit};
ghost use Rattle.listing.specs.Text.{AppendsBeginning};
ghost use Rattle.listing.specs.Lines.{refused_line};
ghost use Rattle.readpage.specs.Report.{decoded_text};
ghost use Rattle.readpage.specs.Input.{PrintedFor};

use listing::Text;
use questions::refusal::Refusal;
use std::io::{Read, Write};
use store_pages::DEFAULT_LIMIT;

// The line of a refusal.
#[tactic(auto, using(listing::proofs::Lengths::refused_line_length))]
fn refused_text(refusal: Refusal) -> Text<813>
    ensures { result ≡ refused_line (number_of refusal.question) refusal.place }
{
    let mut text = Text::new();
    text.append_refused(refusal.question.number(), refusal.place);
    text
}

// The lines of a soft page, each value 0..7.
#[tactic(auto, using(listing::proofs::Lengths::ok_line_length, listing::proofs::Lengths::level_lines_length))]
fn page_text(soft: &[u8]) -> Text<813>
    requires { (length soft.now ≡ 1890) × (leb 1890 (first_above soft.now 7) ≡ true) }
    ensures { result ≡ decoded_text (decoded_page off supercode soft.now default_limit) }
{
    let mut data = [0u8; 150];
    match store_pages::decode_page(soft, DEFAULT_LIMIT, &mut data) {
        Ok(report) => {
            let mut text = Text::new();
            text.append_ok(report.steps);
            text.append_levels(
                report.changed,
                report.changed_marks,
                report.erased,
                report.erased_marks,
            );
            text.append_data(&data);
            text
        }
        Err(refusal) => refused_text(refusal),
    }
}

// The whole output for the input whose first bytes were read: n of them stand in `input`, which has room for more than a dump, so that a longer input shows. The count stays apart from the buffer, as `read` gives it: `PrintedFor` speaks of both.
fn output_of(input: &[u8], n: usize) -> Text<813>
    requires { (2048 < length input.now) × IsPrefixLen n input.now }
    ensures { PrintedFor input.now n result }
{
    let mut soft = [0u8; 1890];
    match store_dumps::read_dump(&input[..n], &mut soft) {
        Ok(()) => page_text(&soft),
        Err(refusal) => refused_text(refusal),
    }
}

// Reads until the buffer is full, the input ends or a read fails, and gives how many bytes stand at its start.
fn read_full<R: Read>(from: &mut R, buffer: &mut [u8]) -> usize
    ensures { IsPrefixLen result buffer.new }
{
    // No `read_exact`: of a shorter input it does not say how much was read.
    let mut n = 0;
    while n < buffer.len() {
        match from.read(&mut buffer[n..]) {
            Ok(0) => return n,
            Ok(more) => n += more,
            Err(_) => return n,
        }
    }
    n
}

// Writes the output for the input, each line by a write of its own. The library's write promises nothing of the bytes that standard output takes, so what they are is asked here.
fn write_output<W: Write>(input: &[u8], n: usize, text: &[u8], out: &mut W) -> std::io::Result<()>
    requires { PrintedFor input.now n text.now }
    ensures ok { OnOk result (Appends (W.contents out.old) (W.contents out.new) text.now) }
    ensures err { OnErr result (AppendsBeginning (W.contents out.old) (W.contents out.new) text.now) }
{
    listing::write_lines(text, out)
}

// One byte more than a dump is read, so that a longer input shows.
fn main(rt: HostRuntime) -> std::io::Result<()> {
    let mut input = [0u8; 2049];
    let n = read_full(&mut rt.stdin(), &mut input);
    let text = output_of(&input, n);
    write_output(&input, n, text.as_bytes(), &mut rt.stdout())
}
