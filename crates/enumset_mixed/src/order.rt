//! The order of mixed sets: the order of their members' bits, valid and unknown, over every representation.

ghost use Rattle.std.specs.Prelude.{Some, refl};
ghost use Rattle.enumset_repr.specs.Order.{compare};
ghost use Rattle.enumset_repr.specs.Laws.Order.{compare_partial, compare_total, same_compare};

use crate::mixed_enum_set::MixedEnumSet;
use enumset_repr::order_of;
use enumset_sets::EnumSetTypeWithRepr;
use std::cmp::Ordering;

impl<T: EnumSetTypeWithRepr> PartialOrd for MixedEnumSet<T> {
    ghost partial_cmp = { λ s t. Some (compare s t) };

    ghost laws = { compare_partial };

    fn partial_cmp(&self, other: &MixedEnumSet<T>) -> Option<Ordering> {
        Some(self.cmp(other))
    }
}

/// Sets are ordered by the greatest bit that is in exactly one of them: the set that has it is the greater. So the
/// greater set has the greater number, and a proper subset is less. Rust's mixed sets, which are over integers only,
/// compare the same way.
impl<T: EnumSetTypeWithRepr> Ord for MixedEnumSet<T> {
    ghost cmp = { compare };

    ghost total = { compare_total };

    ghost matches_partial_cmp = { λ _ _. refl };

    ghost matches_eq = { same_compare };

    fn cmp(&self, other: &MixedEnumSet<T>) -> Ordering {
        order_of(&self.repr, &other.repr)
    }
}
