// Page coding: the data's symbols in rows, and rows in a buffer (`data`); the columns of the rows (`writing`).
#![tactic(auto)]

pub mod data;
pub mod writing;
