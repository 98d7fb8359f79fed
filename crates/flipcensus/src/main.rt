// The program `flipcensus`: prints how many patterns of flips end in the zero word, in another word, and spent, for each level and number of ones. 02, point 14.
// The whole output is built in a buffer by functions with contracts, then written line by line.
#![tactic(auto)]

ghost use Rattle.std.specs.Prelude.{◌≡◌, ◌++◌, ◌+◌, ◌≤◌, ◌<◌, length, OnOk, OnErr};
ghost use Rattle.std.specs.Io.KnownBytes.{Appends};
ghost use Rattle.search.specs.Outcomes.{SupercodesBelow};
ghost use Rattle.listing.specs.Text.{AppendsBeginning};
ghost use Rattle.flipcensus.specs.Text.{level_text, census_text};

use listing::Text;
use stack::Stack;
use std::io::Write;

// The lines of a level, by the stack and masks that are lent; the stack may hold anything.
#[tactic(auto, unfolding(crate::specs::Text::level_text, crate::specs::Text::line_of))]
fn append_level(stack: &mut Stack, masks: &[[u64; 30]; 8], level: usize, text: &mut Text<2128>)
    requires { SupercodesBelow 4 masks.now × (level < 4) × (length text.old + 532 ≤ 2128) }
    ensures { text.new ≡ text.old ++ level_text level 4 }
{
    for ones in 0..4 {
        let t = census::count_patterns(stack, masks, level, ones);
        text.append_census(level as u64, ones as u64, t.zero, t.other, t.spent);
    }
}

// The whole output, by one stack and set of masks.
#[tactic(auto, using(crate::proofs::Lengths::text_below_length), unfolding(crate::specs::Text::text_below))]
fn census_text() -> Text<2128>
    ensures { result ≡ census_text }
{
    let mut stack = Stack::new();
    let masks = search::short_page::supercode_masks();
    let mut text = Text::new();
    for level in 0..4 {
        append_level(&mut stack, &masks, level, &mut text);
    }
    text
}

// Writes the output, each line by a write of its own. The library's write promises nothing of the bytes that standard output takes, so what they are is asked here.
fn write_output<W: Write>(text: &[u8], out: &mut W) -> std::io::Result<()>
    requires { text.now ≡ census_text }
    ensures ok { OnOk result (Appends (W.contents out.old) (W.contents out.new) text.now) }
    ensures err { OnErr result (AppendsBeginning (W.contents out.old) (W.contents out.new) text.now) }
{
    listing::write_lines(text, out)
}

fn main(rt: HostRuntime) -> std::io::Result<()> {
    let text = census_text();
    write_output(text.as_bytes(), &mut rt.stdout())
}
