// Messages between the ends of a channel: what each says, its bytes, its reader and its writer.
#![tactic(auto)]

pub mod fault;
pub mod kind;
pub mod message;
pub mod reader;
pub mod writer;
