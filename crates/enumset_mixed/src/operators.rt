//! The operators on mixed sets: each does what a method does.

ghost use Rattle.std.specs.Prelude.{◌≡◌};
ghost use Rattle.enumset_repr.specs.BitSet as set;
ghost use Rattle.enumset_sets.specs.Elements.{valid_bits};

use crate::mixed_enum_set::MixedEnumSet;
use enumset_repr::EnumSetTypeRepr;
use enumset_sets::EnumSetTypeWithRepr;
use std::ops::{
    BitAnd, BitAndAssign, BitOr, BitOrAssign, BitXor, BitXorAssign, Not, Sub, SubAssign,
};

/// `!a`: the valid bits that are not in the set, as [`complement`](MixedEnumSet::complement). The result has no unknown
/// bits.
impl<T: EnumSetTypeWithRepr> Not for MixedEnumSet<T> {
    type Output = MixedEnumSet<T>;

    ghost not_gives = { λ a r. r ≡ set.difference (valid_bits T.elements) a };

    fn not(self) -> MixedEnumSet<T> {
        self.complement()
    }
}

/// `a & b`: the members of both, as [`intersection`](MixedEnumSet::intersection).
impl<T: EnumSetTypeWithRepr> BitAnd for MixedEnumSet<T> {
    type Output = MixedEnumSet<T>;

    ghost bitand_gives = { λ a b r. r ≡ set.intersection a b };

    fn bitand(self, rhs: MixedEnumSet<T>) -> MixedEnumSet<T> {
        self.intersection(rhs)
    }
}

/// `a | b`: the members of either, as [`union`](MixedEnumSet::union).
impl<T: EnumSetTypeWithRepr> BitOr for MixedEnumSet<T> {
    type Output = MixedEnumSet<T>;

    ghost bitor_gives = { λ a b r. r ≡ set.union a b };

    fn bitor(self, rhs: MixedEnumSet<T>) -> MixedEnumSet<T> {
        self.union(rhs)
    }
}

/// `a ^ b`: the members of exactly one of the two, as [`symmetric_difference`](MixedEnumSet::symmetric_difference).
impl<T: EnumSetTypeWithRepr> BitXor for MixedEnumSet<T> {
    type Output = MixedEnumSet<T>;

    ghost bitxor_gives = { λ a b r. r ≡ set.symmetric_difference a b };

    fn bitxor(self, rhs: MixedEnumSet<T>) -> MixedEnumSet<T> {
        self.symmetric_difference(rhs)
    }
}

/// `a - b`: the members of a that are not in b, as [`difference`](MixedEnumSet::difference).
impl<T: EnumSetTypeWithRepr> Sub for MixedEnumSet<T> {
    type Output = MixedEnumSet<T>;

    ghost sub_gives = { λ a b r. r ≡ set.difference a b };

    fn sub(self, rhs: MixedEnumSet<T>) -> MixedEnumSet<T> {
        self.difference(rhs)
    }
}

/// `a &= b`: a becomes `a & b`.
impl<T: EnumSetTypeWithRepr> BitAndAssign for MixedEnumSet<T> {
    ghost bitand_assign_gives = { λ a b r. r ≡ set.intersection a b };

    fn bitand_assign(&mut self, rhs: MixedEnumSet<T>) {
        self.repr.and_with(&rhs.repr);
    }
}

/// `a |= b`: a becomes `a | b`, as by [`insert_all`](MixedEnumSet::insert_all).
impl<T: EnumSetTypeWithRepr> BitOrAssign for MixedEnumSet<T> {
    ghost bitor_assign_gives = { λ a b r. r ≡ set.union a b };

    fn bitor_assign(&mut self, rhs: MixedEnumSet<T>) {
        self.insert_all(rhs);
    }
}

/// `a ^= b`: a becomes `a ^ b`.
impl<T: EnumSetTypeWithRepr> BitXorAssign for MixedEnumSet<T> {
    ghost bitxor_assign_gives = { λ a b r. r ≡ set.symmetric_difference a b };

    fn bitxor_assign(&mut self, rhs: MixedEnumSet<T>) {
        self.repr.xor_with(&rhs.repr);
    }
}

/// `a -= b`: a becomes `a - b`, as by [`remove_all`](MixedEnumSet::remove_all).
impl<T: EnumSetTypeWithRepr> SubAssign for MixedEnumSet<T> {
    ghost sub_assign_gives = { λ a b r. r ≡ set.difference a b };

    fn sub_assign(&mut self, rhs: MixedEnumSet<T>) {
        self.remove_all(rhs);
    }
}
