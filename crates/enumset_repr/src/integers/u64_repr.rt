//! `u64` as a representation of 64 bits.

ghost use Rattle.std.specs.Prelude.{refl};
ghost use Rattle.std.specs.Int.{w64};
ghost use Rattle.enumset_repr.specs.BitSet as set;
ghost use Rattle.enumset_repr.specs.Number.{bits, bits_listed, integer_of, IsInteger};
ghost use Rattle.enumset_repr.specs.Laws.Hashes.{integer_hash};
ghost use Rattle.enumset_repr.specs.Laws.Integers.{by_integer, integer_operators};
ghost use Rattle.enumset_repr.specs.Laws.Representations.{by_bits, no_asks};

use crate::injective_hash::InjectiveHash;
use crate::primitive::Primitive;
use crate::primitive_iter::PrimitiveIter;
use crate::repr::EnumSetTypeRepr;

#[tactic(auto, using(crate::specs::Laws::Integers::on_integers))]
impl Primitive for u64 {
    ghost set_of = { bits };

    ghost BITS = { 64 };

    const BITS: u32 = 64;

    fn leading_zeros(&self) -> u32 {
        (*self).leading_zeros()
    }

    fn trailing_zeros(&self) -> u32 {
        (*self).trailing_zeros()
    }

    fn ones(&self) -> u32 {
        (*self).count_ones()
    }

    fn without(&self, bit: u32) -> u64 {
        *self & !(1 << bit)
    }

    fn without_least(&self) -> u64 {
        *self & (*self - 1)
    }
}

#[tactic(auto, using(crate::specs::Laws::Integers::on_integers), unfolding(crate::specs::Number::IsInteger, crate::specs::Number::bits_listed))]
impl EnumSetTypeRepr for u64 {
    ghost members = { bits };

    ghost of_members = { integer_of };

    ghost is_value = { IsInteger 64 };

    ghost PREFERRED_ARRAY_LEN = { 1 };

    const PREFERRED_ARRAY_LEN: usize = 1;

    ghost WIDTH = { 64 };

    const WIDTH: u32 = 64;

    ghost EMPTY = { 0 };

    const EMPTY: u64 = 0;

    type Iter = PrimitiveIter<u64>;

    ghost rest = { λ i. bits_listed i.0 };

    fn is_empty(&self) -> bool {
        *self == 0
    }

    fn count_ones(&self) -> u32 {
        self.ones()
    }

    fn add_bit(&mut self, bit: u32) {
        *self |= 1 << bit;
    }

    fn remove_bit(&mut self, bit: u32) {
        *self &= !(1 << bit);
    }

    fn has_bit(&self, bit: u32) -> bool {
        *self & (1 << bit) != 0
    }

    fn and_not(&self, other: u64) -> u64 {
        *self & !other
    }

    fn iter(self) -> PrimitiveIter<u64> {
        PrimitiveIter(self)
    }

    fn word(&self, _i: usize) -> u64 {
        *self
    }

    fn put_word(&mut self, _i: usize, w: u64) {
        // This read tells the proof that the old value is one of the type.
        let _old = *self;
        *self = w;
    }

    ghost represents = { by_integer 64 };

    ghost operators = { integer_operators w64 };

    ghost listed = { by_bits (λ i. i.0) };

    ghost counts = { no_asks };
}

impl InjectiveHash for u64 {
    ghost injective = { integer_hash 8 64 refl };
}
