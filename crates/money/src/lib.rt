// Money: what a kind of money means and does, and two kinds.
#![tactic(auto)]

pub mod basket;
pub mod counts;
pub mod kind;
pub mod satoshi;
