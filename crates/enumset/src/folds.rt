//! Folds of everything that an iterator yields into a set: elements are inserted, sets are united.
//!
//! Each mirrors an impl of `Extend`, `FromIterator` or `Sum` in Rust's `enumset` that the traits of std do not allow
//! here. The functions with `extend` in their names start from the set handed in, the others from the empty set. The
//! order and the repeats of items do not matter. None of the functions allocates.

mod into_mixed_sets;
mod into_sets;
mod of_enum_sets;

pub use into_mixed_sets::{
    mixed_extend_refs, mixed_extend_set_refs, mixed_extend_sets, mixed_from_refs,
    mixed_from_set_refs, mixed_from_sets, mixed_sum_element_refs, mixed_sum_elements,
    mixed_sum_set_refs,
};
pub use into_sets::{
    extend_refs, extend_set_refs, extend_sets, from_refs, from_set_refs, from_sets,
    sum_element_refs, sum_elements, sum_set_refs,
};
pub use of_enum_sets::{
    mixed_extend_enumset_refs, mixed_extend_enumsets, mixed_from_enumset_refs, mixed_from_enumsets,
    mixed_sum_enumset_refs, mixed_sum_enumsets,
};
