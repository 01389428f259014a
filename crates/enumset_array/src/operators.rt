//! The operators of the representation of many words.

ghost use Rattle.std.specs.Prelude.{◌≡◌, ◌*◌};
ghost use Rattle.enumset_repr.specs.BitSet as set;
ghost use Rattle.enumset_array.specs.ArrayWords.{in_use, set_of};

use crate::array_repr::{ArrayRepr, WORD_LIMIT};
use crate::lanes::invert;
use enumset_repr::EnumSetTypeRepr;
use std::ops::{BitAnd, BitOr, BitXor, Not};

impl<const N: usize> BitAnd for ArrayRepr<N> {
    type Output = ArrayRepr<N>;

    ghost bitand_gives = { λ a b r. set_of N r ≡ set.intersection (set_of N a) (set_of N b) };

    /// Returns the members of both.
    fn bitand(self, other: ArrayRepr<N>) -> ArrayRepr<N> {
        let mut result = self;
        result.and_with(&other);
        result
    }
}

impl<const N: usize> BitOr for ArrayRepr<N> {
    type Output = ArrayRepr<N>;

    ghost bitor_gives = { λ a b r. set_of N r ≡ set.union (set_of N a) (set_of N b) };

    /// Returns the members of either.
    fn bitor(self, other: ArrayRepr<N>) -> ArrayRepr<N> {
        let mut result = self;
        result.or_with(&other);
        result
    }
}

impl<const N: usize> BitXor for ArrayRepr<N> {
    type Output = ArrayRepr<N>;

    ghost bitxor_gives = { λ a b r. set_of N r ≡ set.symmetric_difference (set_of N a) (set_of N b) };

    /// Returns the members of exactly one of the two.
    fn bitxor(self, other: ArrayRepr<N>) -> ArrayRepr<N> {
        let mut result = self;
        result.xor_with(&other);
        result
    }
}

#[tactic(auto, unfolding(crate::specs::ArrayWords::is_zero_past))]
impl<const N: usize> Not for ArrayRepr<N> {
    type Output = ArrayRepr<N>;

    ghost not_gives = { λ a r. set_of N r ≡ set.difference (set.below (64 * in_use N)) (set_of N a) };

    /// Returns the numbers below the width that are not members.
    fn not(self) -> ArrayRepr<N> {
        let mut words = self.0;
        invert(&mut words[..N % WORD_LIMIT]);
        ArrayRepr(words)
    }
}
