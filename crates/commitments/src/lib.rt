// Commitments: fee, outputs, bytes and signature.
#![tactic(auto)]

pub mod commitment;
pub mod draft;
pub mod heading;
pub mod price;
pub mod put;
pub mod side;
pub mod sink;
pub mod size;
