//! A representation of one's own: sets of the numbers from 0 to 6, kept in the low seven bits of a byte.
#![tactic(auto, using(enumset_repr::specs::Laws::Integers::on_integers, enumset_sets::specs::Laws::Elements::bits_of_variants))]

ghost use Rattle.std.specs.Prelude.{◌≡◌, ℕ, IsTrue};
ghost use Rattle.enumset_repr.specs.BitSet as set;
ghost use Rattle.enumset_repr.specs.Number.{bits, number};
ghost use Rattle.enumset_repr.specs.Laws.Integers.{by_number};
ghost use Rattle.enumset_repr.specs.Laws.Representations.{by_sets, by_list, no_asks};

pub mod segment;

use enumset_repr::{EnumSetTypeRepr, PrimitiveIter};
use std::marker::Model;
use std::ops::{BitAnd, BitOr, BitXor, Not};

/// A representation of seven bits: bit `n` is bit `n` of a byte, whose highest bit is 0.
#[derive(Clone, Copy, Debug, PartialEq, Eq, PartialOrd, Ord, Hash)]
pub struct Low7(u8);

impl Model for Low7 {
    ghost Value = { ℕ };

    ghost view = { λ v. v.0 };

    ghost invariant = { λ v. IsTrue (set.is_subset (bits v.0) (set.below 7)) };

    ghost inverse = { λ n. record { 0 = n } };
}

impl BitAnd for Low7 {
    type Output = Low7;

    ghost bitand_gives = { λ a b r. bits r ≡ set.intersection (bits a) (bits b) };

    fn bitand(self, other: Low7) -> Low7 {
        Low7(self.0 & other.0)
    }
}

impl BitOr for Low7 {
    type Output = Low7;

    ghost bitor_gives = { λ a b r. bits r ≡ set.union (bits a) (bits b) };

    fn bitor(self, other: Low7) -> Low7 {
        Low7(self.0 | other.0)
    }
}

impl BitXor for Low7 {
    type Output = Low7;

    ghost bitxor_gives = { λ a b r. bits r ≡ set.symmetric_difference (bits a) (bits b) };

    fn bitxor(self, other: Low7) -> Low7 {
        Low7(self.0 ^ other.0)
    }
}

impl Not for Low7 {
    type Output = Low7;

    ghost not_gives = { λ a r. bits r ≡ set.difference (set.below 7) (bits a) };

    fn not(self) -> Low7 {
        Low7(self.0 ^ 0x7f)
    }
}

impl EnumSetTypeRepr for Low7 {
    ghost members = { bits };

    ghost of_members = { number };

    ghost is_value = { λ n. IsTrue (set.is_subset (bits n) (set.below 7)) };

    ghost PREFERRED_ARRAY_LEN = { 1 };

    const PREFERRED_ARRAY_LEN: usize = 1;

    ghost WIDTH = { 7 };

    const WIDTH: u32 = 7;

    ghost EMPTY = { 0 };

    const EMPTY: Low7 = Low7(0);

    type Iter = PrimitiveIter<u8>;

    ghost rest = { λ i. set.ascending (bits i.0) };

    fn is_empty(&self) -> bool {
        self.0 == 0
    }

    fn count_ones(&self) -> u32 {
        self.0.count_ones()
    }

    fn add_bit(&mut self, bit: u32) {
        self.0 |= 1 << bit;
    }

    fn remove_bit(&mut self, bit: u32) {
        self.0 &= !(1 << bit);
    }

    fn has_bit(&self, bit: u32) -> bool {
        self.0 & (1 << bit) != 0
    }

    fn iter(self) -> PrimitiveIter<u8> {
        PrimitiveIter(self.0)
    }

    fn word(&self, _i: usize) -> u64 {
        self.0 as u64
    }

    fn put_word(&mut self, _i: usize, w: u64) {
        self.0 = (w & 0x7f) as u8;
    }

    ghost represents = { by_number 7 };

    ghost operators = { by_sets };

    ghost listed = { by_list };

    ghost counts = { no_asks };
}
