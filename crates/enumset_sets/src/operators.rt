//! The operators on sets of elements: each does what a method does.

ghost use Rattle.std.specs.Prelude.{◌≡◌};
ghost use Rattle.enumset_repr.specs.BitSet as set;
ghost use Rattle.enumset_sets.specs.Elements.{valid_bits};

use crate::element::EnumSetType;
use crate::enum_set::EnumSet;
use enumset_repr::EnumSetTypeRepr;
use std::ops::{
    BitAnd, BitAndAssign, BitOr, BitOrAssign, BitXor, BitXorAssign, Not, Sub, SubAssign,
};

/// `!a`: the valid bits that are not in the set, as [`complement`](EnumSet::complement).
impl<T: EnumSetType> Not for EnumSet<T> {
    type Output = EnumSet<T>;

    ghost not_gives = { λ a r. r ≡ set.difference (valid_bits T.elements) a };

    fn not(self) -> EnumSet<T> {
        self.complement()
    }
}

/// `a & b`: the members of both, as [`intersection`](EnumSet::intersection).
impl<T: EnumSetType> BitAnd for EnumSet<T> {
    type Output = EnumSet<T>;

    ghost bitand_gives = { λ a b r. r ≡ set.intersection a b };

    fn bitand(self, rhs: EnumSet<T>) -> EnumSet<T> {
        self.intersection(rhs)
    }
}

/// `a | b`: the members of either, as [`union`](EnumSet::union).
impl<T: EnumSetType> BitOr for EnumSet<T> {
    type Output = EnumSet<T>;

    ghost bitor_gives = { λ a b r. r ≡ set.union a b };

    fn bitor(self, rhs: EnumSet<T>) -> EnumSet<T> {
        self.union(rhs)
    }
}

/// `a ^ b`: the members of exactly one of the two, as [`symmetric_difference`](EnumSet::symmetric_difference).
impl<T: EnumSetType> BitXor for EnumSet<T> {
    type Output = EnumSet<T>;

    ghost bitxor_gives = { λ a b r. r ≡ set.symmetric_difference a b };

    fn bitxor(self, rhs: EnumSet<T>) -> EnumSet<T> {
        self.symmetric_difference(rhs)
    }
}

/// `a - b`: the members of a that are not in b, as [`difference`](EnumSet::difference).
impl<T: EnumSetType> Sub for EnumSet<T> {
    type Output = EnumSet<T>;

    ghost sub_gives = { λ a b r. r ≡ set.difference a b };

    fn sub(self, rhs: EnumSet<T>) -> EnumSet<T> {
        self.difference(rhs)
    }
}

/// `a &= b`: a becomes `a & b`.
impl<T: EnumSetType> BitAndAssign for EnumSet<T> {
    ghost bitand_assign_gives = { λ a b r. r ≡ set.intersection a b };

    fn bitand_assign(&mut self, rhs: EnumSet<T>) {
        self.repr.and_with(&rhs.repr);
    }
}

/// `a |= b`: a becomes `a | b`, as by [`insert_all`](EnumSet::insert_all).
impl<T: EnumSetType> BitOrAssign for EnumSet<T> {
    ghost bitor_assign_gives = { λ a b r. r ≡ set.union a b };

    fn bitor_assign(&mut self, rhs: EnumSet<T>) {
        self.insert_all(rhs);
    }
}

/// `a ^= b`: a becomes `a ^ b`.
impl<T: EnumSetType> BitXorAssign for EnumSet<T> {
    ghost bitxor_assign_gives = { λ a b r. r ≡ set.symmetric_difference a b };

    fn bitxor_assign(&mut self, rhs: EnumSet<T>) {
        self.repr.xor_with(&rhs.repr);
    }
}

/// `a -= b`: a becomes `a - b`, as by [`remove_all`](EnumSet::remove_all).
impl<T: EnumSetType> SubAssign for EnumSet<T> {
    ghost sub_assign_gives = { λ a b r. r ≡ set.difference a b };

    fn sub_assign(&mut self, rhs: EnumSet<T>) {
        self.remove_all(rhs);
    }
}
