// The desk: questions that need no node, and what it answers.
#![tactic(auto)]

pub mod amount;
pub mod answer;
pub mod named_lock;
pub mod pages;
pub mod questions;
pub mod text;
