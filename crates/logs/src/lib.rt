// Logs of updates, and what they leave each side.
#![tactic(auto)]

pub mod gross;
pub mod scan;
pub mod update;
