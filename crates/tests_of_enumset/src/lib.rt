//! Tests of the crate `enumset`: macros, folds, steps and JSON, at the worked types and at the types of
//! `types_for_tests`; and of users' code over it, with its proofs. `scripts/gate/random-json` tests how strings of JSON
//! are read and written.
//!
//! They are in a crate of their own so that they are proved at the same time as the tests of sets.
#![tactic(auto)]

#[cfg(test)]
mod config;
#[cfg(test)]
mod configs;
#[cfg(test)]
mod each_law;
#[cfg(test)]
mod expect;
#[cfg(test)]
mod faults;
#[cfg(test)]
mod folds;
#[cfg(test)]
mod form;
#[cfg(test)]
mod macro_clauses;
#[cfg(test)]
mod macros;
#[cfg(test)]
mod many_elements;
#[cfg(test)]
mod no_variant;
#[cfg(test)]
mod own_forms;
#[cfg(test)]
mod reading_newer;
#[cfg(test)]
mod refused;
#[cfg(test)]
mod sending_json;
#[cfg(test)]
mod sent;
#[cfg(test)]
mod sizes;
#[cfg(test)]
mod steps;
#[cfg(test)]
mod worked_examples;
