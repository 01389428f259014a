//! The order of sets of elements: the order of their members' bits, over every representation.

ghost use Rattle.std.specs.Prelude.{Some, refl};
ghost use Rattle.enumset_repr.specs.Order.{compare};
ghost use Rattle.enumset_repr.specs.Laws.Order.{compare_partial, compare_total, same_compare};

use crate::element::EnumSetType;
use crate::enum_set::EnumSet;
use enumset_repr::order_of;
use std::cmp::Ordering;

impl<T: EnumSetType> PartialOrd for EnumSet<T> {
    ghost partial_cmp = { λ s t. Some (compare s t) };

    ghost laws = { compare_partial };

    fn partial_cmp(&self, other: &EnumSet<T>) -> Option<Ordering> {
        Some(self.cmp(other))
    }
}

/// Sets are ordered by the greatest bit that is in exactly one of them: the set that has it is the greater. So the
/// greater set has the greater number, and a proper subset is less. Rust's `enumset` compares sets over words from the
/// lowest word on.
impl<T: EnumSetType> Ord for EnumSet<T> {
    ghost cmp = { compare };

    ghost total = { compare_total };

    ghost matches_partial_cmp = { λ _ _. refl };

    ghost matches_eq = { same_compare };

    fn cmp(&self, other: &EnumSet<T>) -> Ordering {
        order_of(&self.repr, &other.repr)
    }
}
