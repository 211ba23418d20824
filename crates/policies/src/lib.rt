//! Eviction policies: which slot gives way when all are filled and one more is needed.
#![tactic(auto)]

pub mod hand;
pub mod laws;
pub mod old;
pub mod policy;
