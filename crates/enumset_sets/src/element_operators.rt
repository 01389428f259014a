//! The operators on a set and an element, which counts as the set of that element alone.

ghost use Rattle.std.specs.Prelude.{◌≡◌};
ghost use Rattle.enumset_repr.specs.BitSet as set;

use crate::element::EnumSetType;
use crate::enum_set::EnumSet;
use std::ops::{BitAnd, BitAndAssign, BitOr, BitOrAssign, BitXor, BitXorAssign, Sub, SubAssign};

/// `a & b`: the set of the element b if it is in a, else the empty set.
impl<T: EnumSetType> BitAnd<T> for EnumSet<T> {
    type Output = EnumSet<T>;

    ghost bitand_gives = { λ a b r. r ≡ set.intersection a (set.only (T.elements.bit b)) };

    fn bitand(self, rhs: T) -> EnumSet<T> {
        self.intersection(EnumSet::only(rhs))
    }
}

/// `a | b`: a with the element b, as by [`insert`](EnumSet::insert).
#[tactic(auto, using(enumset_repr::specs::Laws::Members::union_only))]
impl<T: EnumSetType> BitOr<T> for EnumSet<T> {
    type Output = EnumSet<T>;

    ghost bitor_gives = { λ a b r. r ≡ set.union a (set.only (T.elements.bit b)) };

    fn bitor(self, rhs: T) -> EnumSet<T> {
        let mut all = self;
        all.insert(rhs);
        all
    }
}

/// `a ^ b`: a with the element b if a lacks it, else a without it.
impl<T: EnumSetType> BitXor<T> for EnumSet<T> {
    type Output = EnumSet<T>;

    ghost bitxor_gives = { λ a b r. r
        ≡ set.symmetric_difference a (set.only (T.elements.bit b)) };

    fn bitxor(self, rhs: T) -> EnumSet<T> {
        self.symmetric_difference(EnumSet::only(rhs))
    }
}

/// `a - b`: a without the element b, as by [`remove`](EnumSet::remove).
#[tactic(auto, using(enumset_repr::specs::Laws::Members::difference_only))]
impl<T: EnumSetType> Sub<T> for EnumSet<T> {
    type Output = EnumSet<T>;

    ghost sub_gives = { λ a b r. r ≡ set.difference a (set.only (T.elements.bit b)) };

    fn sub(self, rhs: T) -> EnumSet<T> {
        let mut rest = self;
        rest.remove(rhs);
        rest
    }
}

/// `a &= b`: a becomes `a & b`.
impl<T: EnumSetType> BitAndAssign<T> for EnumSet<T> {
    ghost bitand_assign_gives = { λ a b r. r ≡ set.intersection a (set.only (T.elements.bit b)) };

    fn bitand_assign(&mut self, rhs: T) {
        *self &= EnumSet::only(rhs);
    }
}

/// `a |= b`: a becomes `a | b`.
#[tactic(auto, using(enumset_repr::specs::Laws::Members::union_only))]
impl<T: EnumSetType> BitOrAssign<T> for EnumSet<T> {
    ghost bitor_assign_gives = { λ a b r. r ≡ set.union a (set.only (T.elements.bit b)) };

    fn bitor_assign(&mut self, rhs: T) {
        self.insert(rhs);
    }
}

/// `a ^= b`: a becomes `a ^ b`.
impl<T: EnumSetType> BitXorAssign<T> for EnumSet<T> {
    ghost bitxor_assign_gives = { λ a b r. r
        ≡ set.symmetric_difference a (set.only (T.elements.bit b)) };

    fn bitxor_assign(&mut self, rhs: T) {
        *self ^= EnumSet::only(rhs);
    }
}

/// `a -= b`: a becomes `a - b`.
#[tactic(auto, using(enumset_repr::specs::Laws::Members::difference_only))]
impl<T: EnumSetType> SubAssign<T> for EnumSet<T> {
    ghost sub_assign_gives = { λ a b r. r ≡ set.difference a (set.only (T.elements.bit b)) };

    fn sub_assign(&mut self, rhs: T) {
        self.remove(rhs);
    }
}
