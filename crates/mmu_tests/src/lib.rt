//! Tests of the shadow MMU.
#![tactic(auto)]

#[cfg(test)]
mod scenes;
