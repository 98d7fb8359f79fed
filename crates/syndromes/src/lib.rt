// Rows: the remainder that a row is coded with, and the syndromes of a row. Rows are kept in blocks of 16 symbols, which a processor works on at once; the
// remainder, of which each symbol changes the whole, stands in three words instead.
#![tactic(auto)]

pub mod encoder;
pub mod lists;
pub mod powers;
pub mod syndrome;
