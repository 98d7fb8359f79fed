// Lines of text in fixed memory: decimal and hexadecimal numbers, the lines of a page's listing (01, "The station's interface"; 02, point 6) and of a census (02, point 14); and their writing.
#![tactic(auto)]

pub mod lent;

ghost use Rattle.std.specs.Prelude.{◌≡◌, ◌++◌, ◌+◌, ◌≤◌, ◌<◌, ℕ, List, [], length, take, OnOk, OnErr};
ghost use Rattle.std.specs.Io.KnownBytes.{Appends};
ghost use Rattle.io.specs.Digits.{hex_digit_ascii};
ghost use Rattle.listing.specs.Text.{decimal, hex_of, hex_mark, line_length, AppendsBeginning};
ghost use Rattle.listing.specs.Lines.{ok_line, columns_text, level_line, level_lines, data_line, refused_line, census_line};

pub use lent::{append_census, append_data, append_levels, append_ok, append_refused};
use std::io::{Error, ErrorKind, Write};
use std::marker::Model;

// Text of at most `N` bytes. Clauses see the bytes.
#[derive(Drop)]
pub struct Text<const N: usize> {
    bytes: [u8; N],
    len: usize,
}

impl<const N: usize> Model for Text<N> {
    ghost Value = { List ℕ };

    ghost view = { λ t. take t.len t.bytes };

    ghost invariant = { λ t. t.len ≤ N };
}

impl<const N: usize> Text<N> {
    pub fn new() -> Self
        ensures { result ≡ [] }
    {
        Text {
            bytes: [0; N],
            len: 0,
        }
    }

    pub fn as_bytes(&self) -> &[u8]
        ensures { result.now ≡ self.now }
    {
        &self.bytes[..self.len]
    }

    fn append(&mut self, piece: &[u8])
        requires { length self.old + length piece.now ≤ N }
        ensures { self.new ≡ self.old ++ piece.now }
    {
        let end = self.len + piece.len();
        let bytes = &mut self.bytes[..];
        bytes[self.len..end].copy_from_slice(piece);
        self.len = end;
    }

    // Not by `write!`, whose contract does not say that it succeeds where the text fits.
    fn append_decimal(&mut self, n: u64)
        requires { length self.old + length (decimal n) ≤ N }
        ensures { self.new ≡ self.old ++ decimal n }
    {
        let mut digits = [0u8; 20];
        let k = io::decimal(n, &mut digits);
        self.append(&digits[..k]);
    }

    // Words, and a decimal number behind them.
    fn append_number(&mut self, words: &[u8], n: u64)
        requires { length self.old + length (words.now ++ decimal n) ≤ N }
        ensures { self.new ≡ self.old ++ words.now ++ decimal n }
    {
        self.append(words);
        self.append_decimal(n);
    }

    fn append_hex(&mut self, bytes: &[u8])
        requires { length self.old + length (hex_of bytes.now) ≤ N }
        ensures { self.new ≡ self.old ++ hex_of bytes.now }
    {
        for b in bytes {
            self.append(&[hex_digit(*b / 16), hex_digit(*b % 16)]);
        }
    }

    fn append_mark(&mut self, mark: u64)
        requires { length self.old + length (hex_mark mark) ≤ N }
        ensures { self.new ≡ self.old ++ hex_mark mark }
    {
        let mut digits = [0u8; 16];
        let k = io::hex(mark, 16, &mut digits);
        self.append(&digits[..k]);
    }

    // A total, and behind it the mark of the columns that it counts.
    #[tactic(auto, unfolding(crate::specs::Text::ascii, crate::specs::Lines::columns_text))]
    fn append_columns(&mut self, total: u8, mark: u64)
        requires { length self.old + length (columns_text total mark) ≤ N }
        ensures { self.new ≡ self.old ++ columns_text total mark }
    {
        self.append_decimal(u64::from(total));
        self.append(b" ");
        self.append_mark(mark);
    }

    // ---- the lines

    #[tactic(auto, unfolding(crate::specs::Text::ascii, crate::specs::Lines::ok_line))]
    pub fn append_ok(&mut self, steps: u64)
        requires { length self.old + length (ok_line steps) ≤ N }
        ensures { self.new ≡ self.old ++ ok_line steps }
    {
        self.append_number(b"page ok steps ", steps);
        self.append(b"\n");
    }

    #[tactic(auto, unfolding(crate::specs::Text::ascii, crate::specs::Lines::level_line))]
    fn append_level(
        &mut self,
        level: u64,
        changed: u8,
        changed_mark: u64,
        erased: u8,
        erased_mark: u64,
    )
        requires { length self.old + length (level_line level changed changed_mark erased erased_mark) ≤ N }
        ensures { self.new ≡ self.old ++ level_line level changed changed_mark erased erased_mark }
    {
        self.append_number(b"level ", level);
        self.append(b" changed ");
        self.append_columns(changed, changed_mark);
        self.append(b" erased ");
        self.append_columns(erased, erased_mark);
        self.append(b"\n");
    }

    // The lines of all levels. The totals and marks are four arrays, as a page's report has them.
    #[tactic(auto, using(crate::proofs::Lengths::one_of_four), unfolding(crate::specs::Lines::level_lines))]
    pub fn append_levels(
        &mut self,
        changed: [u8; 4],
        changed_marks: [u64; 4],
        erased: [u8; 4],
        erased_marks: [u64; 4],
    )
        requires { length self.old + length (level_lines 4 changed changed_marks erased erased_marks) ≤ N }
        ensures { self.new ≡ self.old ++ level_lines 4 changed changed_marks erased erased_marks }
    {
        for level in 0..4 {
            self.append_level(
                level as u64,
                changed[level],
                changed_marks[level],
                erased[level],
                erased_marks[level],
            );
        }
    }

    #[tactic(auto, unfolding(crate::specs::Text::ascii, crate::specs::Lines::data_line))]
    pub fn append_data(&mut self, bytes: &[u8])
        requires { length self.old + length (data_line bytes.now) ≤ N }
        ensures { self.new ≡ self.old ++ data_line bytes.now }
    {
        self.append(b"data ");
        self.append_hex(bytes);
        self.append(b"\n");
    }

    #[tactic(auto, unfolding(crate::specs::Text::ascii, crate::specs::Lines::refused_line))]
    pub fn append_refused(&mut self, number: u64, place: u64)
        requires { length self.old + length (refused_line number place) ≤ N }
        ensures { self.new ≡ self.old ++ refused_line number place }
    {
        self.append_number(b"page refused ", number);
        self.append_number(b" place ", place);
        self.append(b"\n");
    }

    // The line of a level and a number of ones: how many patterns end in the zero word, in another word, and spent.
    #[tactic(auto, unfolding(crate::specs::Text::ascii, crate::specs::Lines::census_line))]
    pub fn append_census(&mut self, level: u64, ones: u64, zero: u64, other: u64, spent: u64)
        requires { length self.old + length (census_line level ones zero other spent) ≤ N }
        ensures { self.new ≡ self.old ++ census_line level ones zero other spent }
    {
        self.append_number(b"level ", level);
        self.append_number(b" ones ", ones);
        self.append_number(b" zero ", zero);
        self.append_number(b" other ", other);
        self.append_number(b" spent ", spent);
        self.append(b"\n");
    }
}

// The digit of a number below 16.
fn hex_digit(d: u8) -> u8
    requires { d < 16 }
    ensures { result ≡ hex_digit_ascii d }
{
    if d < 10 { b'0' + d } else { b'a' + (d - 10) }
}

// Writes a line.
fn write_line<W: Write>(line: &[u8], out: &mut W) -> std::io::Result<()>
    ensures ok { OnOk result (Appends (W.contents out.old) (W.contents out.new) line.now) }
    ensures err { OnErr result (AppendsBeginning (W.contents out.old) (W.contents out.new) line.now) }
{
    // No `write_all`: after an error it promises nothing of what was written.
    let mut done = 0;
    while done < line.len() {
        let n = out.write(&line[done..])?;
        if n == 0 {
            return Err(Error::from(ErrorKind::WriteZero));
        }
        done += n;
    }
    Ok(())
}

// How long the first line of a text is, its newline included.
fn line_length(text: &[u8]) -> usize
    ensures { result ≡ line_length text.now }
{
    match text.iter().position(|b| *b == b'\n') {
        Some(newline) => newline + 1,
        None => text.len(),
    }
}

// Writes a text, each line by a write of its own; where one fails, a beginning of the text was written.
pub fn write_lines<W: Write>(text: &[u8], out: &mut W) -> std::io::Result<()>
    ensures ok { OnOk result (Appends (W.contents out.old) (W.contents out.new) text.now) }
    ensures err { OnErr result (AppendsBeginning (W.contents out.old) (W.contents out.new) text.now) }
{
    // No `for` over `split_inclusive`: in a function with a type parameter the check refuses the part of the proof that it writes itself.
    let mut rest = text;
    while !rest.is_empty() {
        let (line, after) = rest.split_at(line_length(rest));
        write_line(line, out)?;
        rest = after;
    }
    Ok(())
}
