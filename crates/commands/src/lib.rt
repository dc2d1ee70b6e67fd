// The commands of a book: what its lines ask for.
#![tactic(auto)]

pub mod command;
pub mod fault;
pub mod parse;
mod words;
