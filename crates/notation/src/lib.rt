// How a text writes things: its lines and words, hex digits and decimal numbers.
#![tactic(auto)]

pub mod hex;
pub mod lines;
pub mod number;
