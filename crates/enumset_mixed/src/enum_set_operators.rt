//! The operators on a mixed set and a set of elements, as on two mixed sets.

ghost use Rattle.std.specs.Prelude.{◌≡◌};
ghost use Rattle.enumset_repr.specs.BitSet as set;

use crate::conversions::convert_mixed;
use crate::mixed_enum_set::MixedEnumSet;
use enumset_sets::{EnumSet, EnumSetTypeWithRepr};
use std::ops::{BitAnd, BitAndAssign, BitOr, BitOrAssign, BitXor, BitXorAssign, Sub, SubAssign};

/// `a & b`: the members of both.
impl<T: EnumSetTypeWithRepr> BitAnd<EnumSet<T>> for MixedEnumSet<T> {
    type Output = MixedEnumSet<T>;

    ghost bitand_gives = { λ a b r. r ≡ set.intersection a b };

    fn bitand(self, rhs: EnumSet<T>) -> MixedEnumSet<T> {
        self.intersection(convert_mixed(rhs))
    }
}

/// `a | b`: the members of either.
impl<T: EnumSetTypeWithRepr> BitOr<EnumSet<T>> for MixedEnumSet<T> {
    type Output = MixedEnumSet<T>;

    ghost bitor_gives = { λ a b r. r ≡ set.union a b };

    fn bitor(self, rhs: EnumSet<T>) -> MixedEnumSet<T> {
        self.union(convert_mixed(rhs))
    }
}

/// `a ^ b`: the members of exactly one of the two.
impl<T: EnumSetTypeWithRepr> BitXor<EnumSet<T>> for MixedEnumSet<T> {
    type Output = MixedEnumSet<T>;

    ghost bitxor_gives = { λ a b r. r ≡ set.symmetric_difference a b };

    fn bitxor(self, rhs: EnumSet<T>) -> MixedEnumSet<T> {
        self.symmetric_difference(convert_mixed(rhs))
    }
}

/// `a - b`: the members of a that are not in b.
impl<T: EnumSetTypeWithRepr> Sub<EnumSet<T>> for MixedEnumSet<T> {
    type Output = MixedEnumSet<T>;

    ghost sub_gives = { λ a b r. r ≡ set.difference a b };

    fn sub(self, rhs: EnumSet<T>) -> MixedEnumSet<T> {
        self.difference(convert_mixed(rhs))
    }
}

/// `a &= b`: a becomes `a & b`.
impl<T: EnumSetTypeWithRepr> BitAndAssign<EnumSet<T>> for MixedEnumSet<T> {
    ghost bitand_assign_gives = { λ a b r. r ≡ set.intersection a b };

    fn bitand_assign(&mut self, rhs: EnumSet<T>) {
        *self &= convert_mixed(rhs);
    }
}

/// `a |= b`: a becomes `a | b`.
impl<T: EnumSetTypeWithRepr> BitOrAssign<EnumSet<T>> for MixedEnumSet<T> {
    ghost bitor_assign_gives = { λ a b r. r ≡ set.union a b };

    fn bitor_assign(&mut self, rhs: EnumSet<T>) {
        *self |= convert_mixed(rhs);
    }
}

/// `a ^= b`: a becomes `a ^ b`.
impl<T: EnumSetTypeWithRepr> BitXorAssign<EnumSet<T>> for MixedEnumSet<T> {
    ghost bitxor_assign_gives = { λ a b r. r ≡ set.symmetric_difference a b };

    fn bitxor_assign(&mut self, rhs: EnumSet<T>) {
        *self ^= convert_mixed(rhs);
    }
}

/// `a -= b`: a becomes `a - b`.
impl<T: EnumSetTypeWithRepr> SubAssign<EnumSet<T>> for MixedEnumSet<T> {
    ghost sub_assign_gives = { λ a b r. r ≡ set.difference a b };

    fn sub_assign(&mut self, rhs: EnumSet<T>) {
        *self -= convert_mixed(rhs);
    }
}
