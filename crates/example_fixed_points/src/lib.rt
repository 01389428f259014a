//! Least fixed points over sets of an enum: states that can be reached, features that are needed in turn, and FIRST,
//! FOLLOW and the empty texts of a grammar. Each is proved by the laws of fixed points.
#![tactic(auto, using(enumset::specs::Sets::set_laws))]

pub mod feature;
pub mod features;
pub mod grammar;
pub mod grammar_in_passes;
pub mod nonterminal;
pub mod nullable;
pub mod state;
pub mod states;
#[cfg(test)]
mod tests;
pub mod token;
