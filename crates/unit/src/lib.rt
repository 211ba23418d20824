//! The machine: every call that users make, with tokens for runs and faults, and whole runs.
#![tactic(auto)]

pub mod accesses;
pub mod faults;
pub mod flushes;
pub mod machine;
pub mod openings;
pub mod requests;
pub mod steps;
pub mod tokens;
pub mod whole;
