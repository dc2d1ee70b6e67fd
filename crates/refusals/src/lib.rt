// Refusals: why a call is declined, with the number, the layer and the words of each reason.
#![tactic(auto)]

pub mod layer;
pub mod reason;
pub mod refusal;
