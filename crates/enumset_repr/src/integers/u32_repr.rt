//! `u32` as a representation of 32 bits.

ghost use Rattle.std.specs.Prelude.{refl};
ghost use Rattle.std.specs.Int.{w32};
ghost use Rattle.enumset_repr.specs.BitSet as set;
ghost use Rattle.enumset_repr.specs.Number.{bits, bits_listed, integer_of, IsInteger};
ghost use Rattle.enumset_repr.specs.Laws.Hashes.{integer_hash};
ghost use Rattle.enumset_repr.specs.Laws.Integers.{by_integer, integer_operators};
ghost use Rattle.enumset_repr.specs.Laws.Representations.{by_bits, no_asks};

use crate::injective_hash::InjectiveHash;
use crate::primitive::Primitive;
use crate::primitive_iter::PrimitiveIter;
use crate::repr::EnumSetTypeRepr;

#[tactic(auto, using(crate::specs::Laws::Integers::on_integers))]
impl Primitive for u32 {
    ghost set_of = { bits };

    ghost BITS = { 32 };

    const BITS: u32 = 32;

    fn leading_zeros(&self) -> u32 {
        (*self).leading_zeros()
    }

    fn trailing_zeros(&self) -> u32 {
        (*self).trailing_zeros()
    }

    fn ones(&self) -> u32 {
        (*self).count_ones()
    }

    fn without(&self, bit: u32) -> u32 {
        *self & !(1 << bit)
    }

    fn without_least(&self) -> u32 {
        *self & (*self - 1)
    }
}

#[tactic(auto, using(crate::specs::Laws::Integers::on_integers), unfolding(crate::specs::Number::IsInteger, crate::specs::Number::bits_listed))]
impl EnumSetTypeRepr for u32 {
    ghost members = { bits };

    ghost of_members = { integer_of };

    ghost is_value = { IsInteger 32 };

    ghost PREFERRED_ARRAY_LEN = { 1 };

    const PREFERRED_ARRAY_LEN: usize = 1;

    ghost WIDTH = { 32 };

    const WIDTH: u32 = 32;

    ghost EMPTY = { 0 };

    const EMPTY: u32 = 0;

    type Iter = PrimitiveIter<u32>;

    ghost rest = { λ i. bits_listed i.0 };

    fn is_empty(&self) -> bool {
        *self == 0
    }

    fn count_ones(&self) -> u32 {
        self.ones()
    }

    fn add_bit(&mut self, bit: u32) {
        *self |= 1 << bit;
    }

    fn remove_bit(&mut self, bit: u32) {
        *self &= !(1 << bit);
    }

    fn has_bit(&self, bit: u32) -> bool {
        *self & (1 << bit) != 0
    }

    fn and_not(&self, other: u32) -> u32 {
        *self & !other
    }

    fn iter(self) -> PrimitiveIter<u32> {
        PrimitiveIter(self)
    }

    fn word(&self, _i: usize) -> u64 {
        *self as u64
    }

    fn put_word(&mut self, _i: usize, w: u64) {
        // This read tells the proof that the old value is one of the type.
        let _old = *self;
        *self = (w & u32::MAX as u64) as u32;
    }

    ghost represents = { by_integer 32 };

    ghost operators = { integer_operators w32 };

    ghost listed = { by_bits (λ i. i.0) };

    ghost counts = { no_asks };
}

impl InjectiveHash for u32 {
    ghost injective = { integer_hash 4 32 refl };
}
