// The lines in memory that is lent, behind its first `at` bytes; each function gives the place where its text ends.
ghost use Rattle.std.specs.Prelude.{◌≡◌, ◌+◌, ◌≤◌, length};
ghost use Rattle.listing.specs.Text.{Appended};
ghost use Rattle.listing.specs.Lines.{ok_line, level_lines, data_line, refused_line, census_line};

use crate::Text;

// Puts a text behind the first `at` bytes.
fn put(piece: &[u8], out: &mut [u8], at: usize) -> usize
    requires { at + length piece.now ≤ length out.old }
    ensures { Appended at piece.now (length piece.now) out.old result out.new }
{
    let end = at + piece.len();
    out[at..end].copy_from_slice(piece);
    end
}

#[tactic(auto, using(crate::proofs::Lengths::ok_line_length, crate::proofs::Appended::as_text))]
pub fn append_ok(steps: u64, out: &mut [u8], at: usize) -> usize
    requires { at + 35 ≤ length out.old }
    ensures { Appended at (ok_line steps) 35 out.old result out.new }
{
    let mut line: Text<35> = Text::new();
    line.append_ok(steps);
    put(line.as_bytes(), out, at)
}

// The lines of all levels.
#[tactic(auto, using(crate::proofs::Lengths::level_lines_length, crate::proofs::Appended::as_text))]
pub fn append_levels(
    changed: [u8; 4],
    changed_marks: [u64; 4],
    erased: [u8; 4],
    erased_marks: [u64; 4],
    out: &mut [u8],
    at: usize,
) -> usize
    requires { at + 472 ≤ length out.old }
    ensures { Appended at (level_lines 4 changed changed_marks erased erased_marks) 472 out.old result out.new }
{
    let mut lines: Text<472> = Text::new();
    lines.append_levels(changed, changed_marks, erased, erased_marks);
    put(lines.as_bytes(), out, at)
}

#[tactic(auto, using(crate::proofs::Lengths::data_line_length, crate::proofs::Appended::as_text))]
pub fn append_data(bytes: &[u8], out: &mut [u8], at: usize) -> usize
    requires { (length bytes.now ≡ 150) × (at + 306 ≤ length out.old) }
    ensures { Appended at (data_line bytes.now) 306 out.old result out.new }
{
    let mut line: Text<306> = Text::new();
    line.append_data(bytes);
    put(line.as_bytes(), out, at)
}

#[tactic(auto, using(crate::proofs::Lengths::refused_line_length, crate::proofs::Appended::as_text))]
pub fn append_refused(number: u64, place: u64, out: &mut [u8], at: usize) -> usize
    requires { at + 61 ≤ length out.old }
    ensures { Appended at (refused_line number place) 61 out.old result out.new }
{
    let mut line: Text<61> = Text::new();
    line.append_refused(number, place);
    put(line.as_bytes(), out, at)
}

// The line of a level and a number of ones: how many patterns end in the zero word, in another word, and spent.
#[tactic(auto, using(crate::proofs::Lengths::census_line_length, crate::proofs::Appended::as_text))]
pub fn append_census(
    level: u64,
    ones: u64,
    zero: u64,
    other: u64,
    spent: u64,
    out: &mut [u8],
    at: usize,
) -> usize
    requires { at + 133 ≤ length out.old }
    ensures { Appended at (census_line level ones zero other spent) 133 out.old result out.new }
{
    let mut line: Text<133> = Text::new();
    line.append_census(level, ones, zero, other, spent);
    put(line.as_bytes(), out, at)
}
