//! Element types that `enumset_derive` writes from sources as Rust users have them, with attributes, derives, imports,
//! comments, and names in JSON as serde has them. Functions and other items of the sources are left out.
//!
//! The program writes each module from its file in `enums/`: change such a file, and call `scripts/written-types`.
#![tactic(auto, using(enumset::specs::Sets::set_laws))]

pub mod axes;
pub mod cards;
pub mod days;
pub mod modes;
pub mod nodes;
pub mod permissions;
pub mod points;
pub mod states;
pub mod tokens;
pub mod verbs;
