// Page decoding as the chip makes it: 02, point 5. Each column is searched with 64 places; the rest is that of every page (crates readings, levels and page).
#![tactic(auto)]

ghost use Rattle.std.specs.Prelude.{◌≡◌, ◌≤◌, length};
ghost use Rattle.column.specs.Shape.{short};
ghost use Rattle.trellis.specs.Demand.{supercode};
ghost use Rattle.search.specs.Outcomes.{TablesFor};
ghost use Rattle.concatenated.specs.Format.{short_page};
ghost use Rattle.concatenated.specs.SoftPage.{Soft, soft_columns};
ghost use Rattle.concatenated.specs.Decode.{decoded};
ghost use Rattle.concatenated.specs.OuterCode.{short_outer};
ghost use Rattle.concatenated.specs.Chip.{chip_column, chip_reader, chip_pushed_out};
ghost use Rattle.concatenated.proofs.Chip.{chip_reads_words};
ghost use Rattle.page.specs.Outcomes.{outcome_of, data_buffer, filled};

use chip::ChipStack;
use page::Report;
use questions::refusal::Refusal;
use readings::ColumnReader;
use search::Found;
use search::short_page::Tables;

// What page decoding gives, and whether any search made pushed a path out: of a refusal by 10 too.
#[derive(Drop)]
pub struct ChipPage {
    pub page: Result<Report, Refusal>,
    pub pushed: bool,
}

// How the chip reads a column: a search with 64 places, and this limit.
#[derive(Drop)]
pub struct ChipReader {
    pub limit: u64,
}

// The places, and whether any search so far pushed a path out.
#[derive(Drop)]
pub struct ChipScratch {
    pub stack: ChipStack,
    pub pushed: bool,
}

// What is noted of a search is whether it pushed a path out. A column without a word counts the paths taken.
impl ColumnReader for ChipReader {
    type Tables = Tables;

    type Scratch = ChipScratch;

    ghost reader = { λ r. chip_reader r.limit };

    ghost limit = { λ r. r.limit };

    ghost made = { λ r i t. TablesFor supercode i t.left t.right t.values };

    ghost test = { λ r i c. (chip_column r.limit i c).any_pushed_out };

    ghost noted = { λ s. s.pushed };

    fn tables(&self, level: usize) -> Tables {
        search::short_page::tables_of(level, true)
    }

    fn read(
        &self,
        tables: &Tables,
        column: &[u8; 30],
        scratch: &mut ChipScratch,
    ) -> Result<Found, u64> {
        let ended = chip::short_page::search_column(
            &mut scratch.stack,
            &tables.trellis(column),
            self.limit,
        );
        scratch.pushed |= ended.pushed;
        ended.found.ok_or(ended.count)
    }

    ghost reads_words = { λ r. chip_reads_words r.limit };
}

// The outcome of a soft page; the data are written last, and only if there is an answer.
pub fn decode_page(soft: &[u8], limit: u64, data: &mut [u8]) -> ChipPage
    requires { (length soft.now ≡ 1890) × Soft soft.now × (limit ≤ 2000) × (length «data».old ≡ 150) }
    ensures page_value { result.page ≡ outcome_of (decoded short short_outer (chip_reader limit) (soft_columns short_page soft.now)) }
    ensures pushed_value { result.pushed ≡ chip_pushed_out limit short_outer (soft_columns short_page soft.now) }
    ensures data_after { «data».new ≡ filled data_buffer «data».old (decoded short short_outer (chip_reader limit) (soft_columns short_page soft.now)) }
{
    let mut scratch = ChipScratch {
        stack: ChipStack::new(),
        pushed: false,
    };
    let reader = ChipReader { limit };
    let page = page::decode_by(soft, &reader, &mut scratch, data);
    ChipPage {
        page,
        pushed: scratch.pushed,
    }
}
