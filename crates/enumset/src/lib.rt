//! Sets of an enum's variants, by the paths of Rust's crate `enumset`.
//!
//! Most items come from the crates below: [`EnumSet`] and the traits of its elements from `enumset_sets`,
//! [`MixedEnumSet`](set::MixedEnumSet) from `enumset_mixed`, and the representations from `enumset_repr` and
//! `enumset_array`. Declared in this crate are the macros, the names of elements ([`EnumSetNames`]), the modules
//! [`folds`] and [`set_json`], and most of the [`laws`].
//!
//! # Element types
//!
//! An element type is an enum with an impl of [`EnumSetType`]. The program `enumset_derive` writes this impl from an
//! enum that has the attribute `#[derive(EnumSetType)]` in its source.
//!
//! ```rust
//! pub enum Letters {
//!     A,
//!     B,
//!     C,
//!     D,
//!     E,
//!     F,
//!     G,
//! }
//! ```
//!
//! # Sets
//!
//! The operator `|` makes a set of elements:
//!
//! ```rust
//! let set = Letters::A | Letters::C | Letters::G;
//! assert!(rt; set.len() == 3);
//! ```
//!
//! Sets have the operators of integers. `-` is the difference, and `!` is the set of the variants that are not in a
//! set:
//!
//! ```rust
//! let (ab, bc) = (Letters::A | Letters::B, Letters::B | Letters::C);
//! assert!(rt; ab & bc == enum_set!(Letters::B));
//! assert!(rt; ab - bc == enum_set!(Letters::A));
//! assert!(rt; ab ^ bc == Letters::A | Letters::C);
//! assert!(rt; !(ab | bc) == Letters::D | Letters::E | Letters::F | Letters::G);
//! ```
//!
//! The macro [`enum_set!`] makes a set of any number of elements, also of none and of one. A set is not a constant, so
//! a function takes the place of a constant:
//!
//! ```rust
//! fn outer() -> EnumSet<Letters> {
//!     enum_set!(Letters::A | Letters::G)
//! }
//! ```
//!
//! Calls that change a set have the names that they have in the sets of std:
//!
//! ```rust
//! let mut set = EnumSet::new();
//! set.insert(Letters::A);
//! set.insert_all(Letters::E | Letters::G);
//! assert!(rt; set.contains(Letters::A) && !set.contains(Letters::B));
//! ```
#![tactic(auto)]

mod element_macros;
pub mod folds;
pub mod internal;
pub mod laws;
mod names;
pub mod set;
pub mod set_json;
mod set_macros;

pub use enumset_sets::{
    EnumSet, EnumSetFilter, EnumSetIter, EnumSetType, EnumSetTypeWithRepr, fixed_points,
    fixed_points_of_many, variants,
};
pub use names::EnumSetNames;
