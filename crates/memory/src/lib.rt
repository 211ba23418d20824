//! Guest memory: frames of words, whole or in part.
#![tactic(auto)]

pub mod flat;
pub mod guest;
pub mod partition;
pub mod refusal;
