//! Page formats: how an entry reads, what it allows, how it is marked, and the codes of faults.
#![tactic(auto)]

pub mod access;
mod bits;
pub mod format;
pub mod laws;
pub mod sv32;
pub mod x86;
