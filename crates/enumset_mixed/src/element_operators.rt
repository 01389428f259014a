//! The operators on a mixed set and an element, which counts as the set of that element alone.

ghost use Rattle.std.specs.Prelude.{◌≡◌};
ghost use Rattle.enumset_repr.specs.BitSet as set;

use crate::mixed_enum_set::MixedEnumSet;
use enumset_sets::{EnumSetType, EnumSetTypeWithRepr};
use std::ops::{BitAnd, BitAndAssign, BitOr, BitOrAssign, BitXor, BitXorAssign, Sub, SubAssign};

/// `a & b`: the set of the element b if it is in a, else the empty set.
impl<T: EnumSetTypeWithRepr> BitAnd<T> for MixedEnumSet<T> {
    type Output = MixedEnumSet<T>;

    ghost bitand_gives = { λ a b r. r ≡ set.intersection a (set.only (T.elements.bit b)) };

    fn bitand(self, rhs: T) -> MixedEnumSet<T> {
        self.intersection(MixedEnumSet::only(rhs))
    }
}

/// `a | b`: a with the element b, as by [`insert`](MixedEnumSet::insert).
#[tactic(auto, using(enumset_repr::specs::Laws::Members::union_only))]
impl<T: EnumSetTypeWithRepr> BitOr<T> for MixedEnumSet<T> {
    type Output = MixedEnumSet<T>;

    ghost bitor_gives = { λ a b r. r ≡ set.union a (set.only (T.elements.bit b)) };

    fn bitor(self, rhs: T) -> MixedEnumSet<T> {
        let mut all = self;
        all.insert(rhs);
        all
    }
}

/// `a ^ b`: a with the element b if a lacks it, else a without it.
impl<T: EnumSetTypeWithRepr> BitXor<T> for MixedEnumSet<T> {
    type Output = MixedEnumSet<T>;

    ghost bitxor_gives = { λ a b r. r
        ≡ set.symmetric_difference a (set.only (T.elements.bit b)) };

    fn bitxor(self, rhs: T) -> MixedEnumSet<T> {
        self.symmetric_difference(MixedEnumSet::only(rhs))
    }
}

/// `a - b`: a without the element b, as by [`remove`](MixedEnumSet::remove).
#[tactic(auto, using(enumset_repr::specs::Laws::Members::difference_only))]
impl<T: EnumSetTypeWithRepr> Sub<T> for MixedEnumSet<T> {
    type Output = MixedEnumSet<T>;

    ghost sub_gives = { λ a b r. r ≡ set.difference a (set.only (T.elements.bit b)) };

    fn sub(self, rhs: T) -> MixedEnumSet<T> {
        let mut rest = self;
        rest.remove(rhs);
        rest
    }
}

/// `a &= b`: a becomes `a & b`.
impl<T: EnumSetTypeWithRepr> BitAndAssign<T> for MixedEnumSet<T> {
    ghost bitand_assign_gives = { λ a b r. r ≡ set.intersection a (set.only (T.elements.bit b)) };

    fn bitand_assign(&mut self, rhs: T) {
        *self &= MixedEnumSet::only(rhs);
    }
}

/// `a |= b`: a becomes `a | b`.
#[tactic(auto, using(enumset_repr::specs::Laws::Members::union_only))]
impl<T: EnumSetTypeWithRepr> BitOrAssign<T> for MixedEnumSet<T> {
    ghost bitor_assign_gives = { λ a b r. r ≡ set.union a (set.only (T.elements.bit b)) };

    fn bitor_assign(&mut self, rhs: T) {
        self.insert(rhs);
    }
}

/// `a ^= b`: a becomes `a ^ b`.
impl<T: EnumSetTypeWithRepr> BitXorAssign<T> for MixedEnumSet<T> {
    ghost bitxor_assign_gives = { λ a b r. r
        ≡ set.symmetric_difference a (set.only (T.elements.bit b)) };

    fn bitxor_assign(&mut self, rhs: T) {
        *self ^= MixedEnumSet::only(rhs);
    }
}

/// `a -= b`: a becomes `a - b`.
#[tactic(auto, using(enumset_repr::specs::Laws::Members::difference_only))]
impl<T: EnumSetTypeWithRepr> SubAssign<T> for MixedEnumSet<T> {
    ghost sub_assign_gives = { λ a b r. r ≡ set.difference a (set.only (T.elements.bit b)) };

    fn sub_assign(&mut self, rhs: T) {
        self.remove(rhs);
    }
}
