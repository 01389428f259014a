//! The sets and their iterators. The module mirrors the module `set` of Rust's `enumset`.
pub use enumset_mixed::{MixedEnumSet, MixedEnumSetFilter, MixedEnumSetIter, MixedValue};
pub use enumset_sets::{EnumSet, EnumSetFilter, EnumSetIter};
