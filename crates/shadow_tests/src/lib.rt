//! Tests of the slot table and of the rule of hits.
#![tactic(auto)]

#[cfg(test)]
mod changes;
#[cfg(test)]
mod finding;
#[cfg(test)]
mod hit_rule;
#[cfg(test)]
mod scene;
#[cfg(test)]
mod writes;
