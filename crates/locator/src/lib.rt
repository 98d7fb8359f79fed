// The error locations of a row: modified syndromes, the locator polynomial, its roots.
#![tactic(auto)]

pub mod erasure;
pub mod locate;
pub mod root;
