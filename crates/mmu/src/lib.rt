//! A shadow MMU: what it does to its slots, asking guest memory and the eviction policy.
#![tactic(auto)]

pub mod checking;
pub mod exits;
pub mod linking;
pub mod looking;
pub mod taking;
pub mod tracing;
pub mod unit;
pub mod words;
