//! One slot of a shadow page table: what it shadows, and its copies of the guest's entries.
#![tactic(auto)]

pub mod changing;
pub mod checking;
pub mod evicting;
pub mod guarding;
pub mod reading;
pub mod slots;
pub mod writing;
