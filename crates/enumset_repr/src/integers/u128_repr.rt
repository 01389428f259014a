//! `u128` as a representation of 128 bits.

ghost use Rattle.std.specs.Prelude.{refl};
ghost use Rattle.std.specs.Int.{w128};
ghost use Rattle.enumset_repr.specs.BitSet as set;
ghost use Rattle.enumset_repr.specs.Number.{bits, bits_listed, integer_of, IsInteger};
ghost use Rattle.enumset_repr.specs.Laws.Hashes.{integer_hash};
ghost use Rattle.enumset_repr.specs.Laws.Integers.{by_integer, integer_operators};
ghost use Rattle.enumset_repr.specs.Laws.Representations.{by_bits, no_asks};

use crate::injective_hash::InjectiveHash;
use crate::primitive::Primitive;
use crate::primitive_iter::PrimitiveIter;
use crate::repr::EnumSetTypeRepr;

#[tactic(auto, using(crate::specs::Laws::Integers::on_integers))]
impl Primitive for u128 {
    ghost set_of = { bits };

    ghost BITS = { 128 };

    const BITS: u32 = 128;

    fn leading_zeros(&self) -> u32 {
        (*self).leading_zeros()
    }

    fn trailing_zeros(&self) -> u32 {
        (*self).trailing_zeros()
    }

    fn ones(&self) -> u32 {
        (*self).count_ones()
    }

    fn without(&self, bit: u32) -> u128 {
        *self & !(1 << bit)
    }

    fn without_least(&self) -> u128 {
        *self & (*self - 1)
    }
}

#[tactic(auto, using(crate::specs::Laws::Integers::on_integers), unfolding(crate::specs::Number::IsInteger, crate::specs::Number::bits_listed))]
impl EnumSetTypeRepr for u128 {
    ghost members = { bits };

    ghost of_members = { integer_of };

    ghost is_value = { IsInteger 128 };

    ghost PREFERRED_ARRAY_LEN = { 2 };

    const PREFERRED_ARRAY_LEN: usize = 2;

    ghost WIDTH = { 128 };

    const WIDTH: u32 = 128;

    ghost EMPTY = { 0 };

    const EMPTY: u128 = 0;

    type Iter = PrimitiveIter<u128>;

    ghost rest = { λ i. bits_listed i.0 };

    fn is_empty(&self) -> bool {
        *self == 0
    }

    fn count_ones(&self) -> u32 {
        self.ones()
    }

    fn add_bit(&mut self, bit: u32) {
        *self |= 1 << bit;
    }

    fn remove_bit(&mut self, bit: u32) {
        *self &= !(1 << bit);
    }

    fn has_bit(&self, bit: u32) -> bool {
        *self & (1 << bit) != 0
    }

    fn and_not(&self, other: u128) -> u128 {
        *self & !other
    }

    fn iter(self) -> PrimitiveIter<u128> {
        PrimitiveIter(self)
    }

    fn word(&self, i: usize) -> u64 {
        (*self >> (64 * i) & u64::MAX as u128) as u64
    }

    fn put_word(&mut self, i: usize, w: u64) {
        let place = 64 * i;
        *self = *self & !((u64::MAX as u128) << place) | (w as u128) << place;
    }

    ghost represents = { by_integer 128 };

    ghost operators = { integer_operators w128 };

    ghost listed = { by_bits (λ i. i.0) };

    ghost counts = { no_asks };
}

impl InjectiveHash for u128 {
    ghost injective = { integer_hash 16 128 refl };
}
