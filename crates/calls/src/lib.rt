//! The calls of the unit with their refusals. Faults and runs are plain records here.
#![tactic(auto)]

pub mod accessing;
pub mod checks;
pub mod flushing;
pub mod plain;
pub mod settling;
pub mod starting;
