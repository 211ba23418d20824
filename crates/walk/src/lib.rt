//! The walk of a guest's page tables, and the marks that it leaves.
#![tactic(auto)]

pub mod fault;
pub mod marking;
pub mod path;
pub mod walking;
