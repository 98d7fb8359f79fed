// Test entries of the chip model for C, thin over its calls: what tests/run-vectors and tests/run-chip call beside crates/entries. An archive of their own, since the store's has no chip.
#![tactic(auto)]

ghost use Rattle.std.specs.Prelude.{◌≡◌};
ghost use Rattle.store_chip.specs.Chip.{chip_answer};
ghost use Rattle.chip_entries.specs.Told.{chip_found_of, chip_reply_of, ChipReplied};

use chip_pages::ChipPage;
use entries::{Found, PageReply};
use store_chip::ChipAnswer;

// What the chip's search answers, as C gets it.
#[repr(C)]
#[derive(Drop)]
pub struct ChipFound {
    pub number: u64,
    pub place: u64,
    pub word: u64,
    pub count: u64,
    pub low: i16,
    pub pushed: bool,
}

impl From<ChipAnswer> for ChipFound {
    ghost from_gives = { λ answer told. told ≡ chip_found_of answer };

    fn from(answer: ChipAnswer) -> ChipFound {
        let told = Found::from(answer.found);
        ChipFound {
            number: told.number,
            place: told.place,
            word: told.word,
            count: answer.count,
            low: told.low,
            pushed: answer.pushed,
        }
    }
}

#[unsafe(no_mangle)]
pub extern "C" fn entry_search_chip(soft: &[u8], level: u64, limit: u64) -> ChipFound
    ensures { result ≡ chip_found_of (chip_answer soft.now level limit) }
{
    store_chip::search_chip(soft, level, limit).into()
}

// What page decoding by the chip's search tells: the page's numbers, and whether any search made pushed a path out.
#[repr(C)]
#[derive(Drop)]
pub struct ChipReply {
    pub page: PageReply,
    pub pushed: bool,
}

impl From<ChipPage> for ChipReply {
    ghost from_gives = { λ decoded told. told ≡ chip_reply_of decoded };

    fn from(decoded: ChipPage) -> ChipReply {
        ChipReply {
            page: decoded.page.into(),
            pushed: decoded.pushed,
        }
    }
}

#[unsafe(no_mangle)]
pub extern "C" fn entry_decode_page_chip(soft: &[u8], limit: u64, data: &mut [u8]) -> ChipReply
    ensures { ChipReplied soft.now limit «data».old result «data».new }
{
    store_chip::decode_page_chip(soft, limit, data).into()
}
