// Secrets of commitments: deriving them, and keeping those that the peer has revealed.
#![tactic(auto)]

pub mod derivation;
pub mod known;
pub mod store;
