// Bytes: numbers with the highest byte first, and reading and writing at a place of a lent slice.
#![tactic(auto)]

pub mod numbers;
pub mod places;
