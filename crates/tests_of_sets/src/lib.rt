//! Tests of `enumset_repr`, `enumset_array`, `enumset_sets` and `enumset_mixed`.
//!
//! They test what no contract says: that calls succeed, that the definitions say what they should, texts, hashes and
//! sizes. They are in a crate of their own so that the crates that they test are proved once. They call nothing of the
//! crate `enumset`.
#![tactic(auto)]

#[cfg(test)]
mod expect;
#[cfg(test)]
mod hash_of;
#[cfg(test)]
mod repr;
#[cfg(test)]
mod sets;
#[cfg(test)]
mod worked_examples;
