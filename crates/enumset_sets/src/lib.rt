//! Sets of the variants of an enum, kept as values of a representation.
//!
//! [`EnumSet`] names no element type and no representation: it is proved once, over every [`EnumSetType`] and every
//! `EnumSetTypeRepr` of `enumset_repr`. Contracts see a set as the finite set of its elements' bits.
#![tactic(auto)]

mod chains;
pub mod element;
mod element_operators;
pub mod enum_set;
mod enum_set_filter;
pub mod enum_set_iter;
pub mod fixed_points;
pub mod fixed_points_of_many;
mod folds;
mod hash;
pub mod laws;
mod numbers;
mod operators;
mod order;
pub mod raw;
pub mod text;
pub mod variants;
pub mod with_repr;
mod words;

pub use element::EnumSetType;
pub use enum_set::EnumSet;
pub use enum_set_filter::EnumSetFilter;
pub use enum_set_iter::EnumSetIter;
pub use with_repr::EnumSetTypeWithRepr;
