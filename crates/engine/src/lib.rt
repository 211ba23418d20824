//! What the machine does once a call is accepted.
#![tactic(auto)]

pub mod accesses;
pub mod engine;
pub mod flushing;
pub mod following;
pub mod settling;
pub mod switching;
pub mod tallies;
pub mod touching;
