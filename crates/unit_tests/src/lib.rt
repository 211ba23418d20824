//! Tests of the machine's public calls.
#![tactic(auto)]

#[cfg(test)]
mod evictions;
#[cfg(test)]
mod partitions;
#[cfg(test)]
mod refusals;
#[cfg(test)]
mod scene;
#[cfg(test)]
mod tables;
#[cfg(test)]
mod tokens;
