//! The unit by definitions, its runs, and the laws of runs. What is proved of them stands on the contracts of the functions
//! in `laws`.
#![tactic(auto)]

pub mod laws;
