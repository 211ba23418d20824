//! Answering an access from what the slots hold.
#![tactic(auto)]

pub mod hits;
pub mod looking;
