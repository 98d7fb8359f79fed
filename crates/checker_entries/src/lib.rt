// Test entry of the checker of listings for C, thin over its call: what tests/run-vectors and tests/run-checker call beside crates/entries. An archive of its own, since that of crates/entries has none.
#![tactic(auto)]

ghost use Rattle.std.specs.Prelude.{◌≡◌};
ghost use Rattle.search.specs.Outcomes.{search_of};
ghost use Rattle.store_listings.specs.Listings.{listing_answer};
ghost use Rattle.checker_entries.specs.Told.{listing_told_of};

use questions::refusal::Refusal;

// What the checker answers, as C gets it: line 0 where the listing is accepted, or refused by number and place.
#[repr(C)]
#[derive(Drop)]
pub struct ListingTold {
    pub number: u64,
    pub place: u64,
    pub line: u64,
}

impl From<Result<Option<u64>, Refusal>> for ListingTold {
    ghost from_gives = { λ answer told. told ≡ listing_told_of answer };

    fn from(answer: Result<Option<u64>, Refusal>) -> ListingTold {
        match answer {
            Ok(wrong) => ListingTold {
                number: 0,
                place: 0,
                line: wrong.unwrap_or(0),
            },
            Err(refusal) => ListingTold {
                number: refusal.question.number(),
                place: refusal.place,
                line: 0,
            },
        }
    }
}

#[unsafe(no_mangle)]
pub extern "C" fn entry_check_listing(
    soft: &[u8],
    level: u64,
    in_supercodes: bool,
    lengths: &[u64],
    bits: &[u64],
) -> ListingTold
    ensures { result ≡ listing_told_of (listing_answer (search_of in_supercodes) level soft.now lengths.now bits.now) }
{
    store_listings::check_listing(soft, level, in_supercodes, lengths, bits).into()
}
