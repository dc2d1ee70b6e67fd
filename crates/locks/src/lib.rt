// Locks: what a lock means and does, the hash lock and the group lock.
#![tactic(auto)]

pub mod group_lock;
pub mod hash_lock;
pub mod lock;
mod power;
