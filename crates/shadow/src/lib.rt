//! Shadow page tables: a fixed number of slots that hold copies of the guest's entries.
#![tactic(auto)]

pub mod checking;
pub mod evicting;
pub mod finding;
pub mod guarding;
pub mod slots;
pub mod writing;
