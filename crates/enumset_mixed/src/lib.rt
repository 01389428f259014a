//! Sets of the variants of an enum that also keep unknown bits, which no variant has.
//!
//! [`MixedEnumSet`] names no element type and no representation: it is proved once, over every
//! [`EnumSetTypeWithRepr`](enumset_sets::EnumSetTypeWithRepr) and every `EnumSetTypeRepr` of `enumset_repr`. Contracts
//! see a set as the finite set of its bits, each below the width of the representation.
#![tactic(auto)]

mod chains;
pub mod conversions;
mod element_operators;
mod enum_set_operators;
mod folds;
mod hash;
pub mod mixed_enum_set;
mod mixed_enum_set_filter;
pub mod mixed_enum_set_iter;
pub mod mixed_value;
mod operators;
mod order;
mod text;

pub use conversions::convert_mixed;
pub use mixed_enum_set::MixedEnumSet;
pub use mixed_enum_set_filter::MixedEnumSetFilter;
pub use mixed_enum_set_iter::MixedEnumSetIter;
pub use mixed_value::MixedValue;
