// What page decoding does to a soft page beside reading it: looking its columns up (`look`), taking a row's level words off them (`rows`), and sets of them as marks (`sets`).
#![tactic(auto)]

pub mod look;
pub mod rows;
pub mod sets;
