//! Tests of the eviction policies.
#![tactic(auto)]

#[cfg(test)]
mod scenes;
#[cfg(test)]
mod sequences;
