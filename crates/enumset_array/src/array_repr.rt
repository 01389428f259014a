//! The representation of many words.

ghost use Rattle.std.specs.Prelude.{◌≡◌, ◌<◌, ◌≤◌, ◌*◌, replicate};
ghost use Rattle.enumset_repr.specs.BitSet.{ascending};
ghost use Rattle.enumset_array.specs.ArrayWords.{array_of, in_use, set_of, IsArrayRepr};
ghost use Rattle.enumset_repr.specs.Words.{words};
ghost use Rattle.enumset_repr.specs.Laws.Representations.{by_sets};
ghost use Rattle.enumset_array.specs.Laws.Asks.{counted, listed};
ghost use Rattle.enumset_array.specs.Laws.Order.{compare_is};
ghost use Rattle.enumset_array.specs.Laws.ArrayWords.{set_of_none, within, inverse, represented, is_value};
ghost use Rattle.enumset_array.specs.Laws.ArrayWords.{width_words, equal, same_hash};

use crate::array_iter::ArrayIter;
use crate::lanes;
use crate::set_operation::{And, AndNot, Or, Xor, apply, apply_changes, yields_none};
use enumset_repr::{EnumSetTypeRepr, InjectiveHash};
use std::marker::Model;

/// The number of words in use is always below this limit, so that the width fits a `u32`.
pub(crate) const WORD_LIMIT: usize = 67108864;

/// A representation of `N` words of 64 bits, the lowest first: bit `n` is bit `n % 64` of word `n / 64`.
///
/// Only the first [`LEN`](ArrayRepr::LEN) words are in use, and the others are 0. Code that builds a value must prove
/// that the others are 0. Up to 67108863 words all are in use, so there is nothing to prove.
///
/// The struct mirrors `ArrayRepr` of Rust's `enumset`, where `N` must not be 0 and the width overflows from 67108864
/// words on.
#[derive(Clone, Copy, Debug, Hash)]
pub struct ArrayRepr<const N: usize>(pub [u64; N]);

impl<const N: usize> Model for ArrayRepr<N> {
    ghost use Rattle.std.specs.Prelude.{ℕ, List, IsTrue};
    ghost use Rattle.enumset_array.specs.ArrayWords.{is_empty_past};

    ghost Value = { List ℕ };

    ghost view = { λ r. r.0 };

    ghost invariant = { λ r. IsTrue (is_empty_past N r.0) };

    ghost inverse = { λ ws. record { 0 = ws } };
}

/// Values are compared word by word.
impl<const N: usize> PartialEq for ArrayRepr<N> {
    ghost use Rattle.std.specs.Prelude.{nat_eq};
    ghost use Rattle.std.specs.Cmp.Lexicographic.{pointwise};
    ghost use Rattle.std.specs.Cmp.{partial_equiv_from_equiv};
    ghost use Rattle.std.proofs.lemmas.Cmp.{nat_list_eq_equiv};

    ghost eq = { pointwise nat_eq };

    ghost laws = { partial_equiv_from_equiv nat_list_eq_equiv };

    fn eq(&self, other: &ArrayRepr<N>) -> bool {
        lanes::words_yield_none::<Xor>(&self.0, &other.0)
    }
}

impl<const N: usize> Eq for ArrayRepr<N> {
    ghost use Rattle.std.proofs.lemmas.Cmp.{nat_list_eq_equiv};

    ghost laws = { nat_list_eq_equiv };
}

impl<const N: usize> ArrayRepr<N> {
    /// The number of words in use: the remainder of `N` by 67108864, which is `N` itself up to 67108863. So the width,
    /// 64 bits a word, is below 2^32 for every `N`.
    pub const LEN: usize = N % WORD_LIMIT;

    /// Returns the words. A proof learns from the call that `self` is a value of the type.
    pub(crate) fn words(&self) -> &[u64; N]
        ensures value { IsArrayRepr N self.now }
        ensures words { result.now ≡ self.now }
    {
        // Behind a `&`, a proof does not know that the words have 64 bits.
        self.learn_is_value();
        &self.0
    }
}

#[tactic(auto, unfolding(crate::specs::ArrayWords::is_zero_past))]
impl<const N: usize> EnumSetTypeRepr for ArrayRepr<N> {
    ghost members = { set_of N };

    ghost of_members = { array_of N };

    ghost is_value = { IsArrayRepr N };

    ghost PREFERRED_ARRAY_LEN = { in_use N };

    const PREFERRED_ARRAY_LEN: usize = N % WORD_LIMIT;

    ghost WIDTH = { 64 * in_use N };

    const WIDTH: u32 = 64 * (N % WORD_LIMIT) as u32;

    ghost EMPTY = { replicate N 0 };

    const EMPTY: Self = ArrayRepr([0; N]);

    type Iter = ArrayIter<N>;

    ghost rest = { λ i. i.items };

    ghost asks = { λ i. i.asks };

    ghost span = { λ i. i.span };

    fn learn_is_value(self) {
        // This read tells the proof that the words are those of a value of the type.
        let _words = &self.0;
    }

    fn is_empty(&self) -> bool {
        // A set has its own members in common with itself.
        yields_none::<And, N>(self, self)
    }

    fn count_ones(&self) -> u32 {
        lanes::ones_of(&self.words()[..N % WORD_LIMIT])
    }

    fn add_bit(&mut self, bit: u32) {
        self.0[(bit / 64) as usize] |= 1 << (bit % 64);
    }

    fn remove_bit(&mut self, bit: u32) {
        self.0[(bit / 64) as usize] &= !(1 << (bit % 64));
    }

    fn has_bit(&self, bit: u32) -> bool {
        self.words()[(bit / 64) as usize] & (1 << (bit % 64)) != 0
    }

    fn and_not(&self, other: ArrayRepr<N>) -> ArrayRepr<N> {
        let mut result = *self;
        result.and_not_with(&other);
        result
    }

    fn or_with(&mut self, other: &ArrayRepr<N>) {
        apply::<Or, N>(self, other);
    }

    fn and_with(&mut self, other: &ArrayRepr<N>) {
        apply::<And, N>(self, other);
    }

    fn xor_with(&mut self, other: &ArrayRepr<N>) {
        apply::<Xor, N>(self, other);
    }

    fn and_not_with(&mut self, other: &ArrayRepr<N>) {
        apply::<AndNot, N>(self, other);
    }

    #[tactic(auto, using(enumset_repr::specs::Laws::Counting::is_empty_difference))]
    fn is_subset_of(&self, other: &ArrayRepr<N>) -> bool {
        yields_none::<AndNot, N>(self, other)
    }

    #[tactic(auto, using(enumset_repr::specs::Laws::Counting::is_empty_intersection))]
    fn is_disjoint_from(&self, other: &ArrayRepr<N>) -> bool {
        yields_none::<And, N>(self, other)
    }

    #[tactic(auto, using(crate::proofs::Changes::same_union))]
    fn or_changes(&mut self, other: &ArrayRepr<N>) -> bool {
        apply_changes::<Or, N>(self, other)
    }

    #[tactic(auto, using(crate::proofs::Changes::same_intersection))]
    fn and_changes(&mut self, other: &ArrayRepr<N>) -> bool {
        apply_changes::<And, N>(self, other)
    }

    #[tactic(auto, using(crate::proofs::Changes::same_difference))]
    fn and_not_changes(&mut self, other: &ArrayRepr<N>) -> bool {
        apply_changes::<AndNot, N>(self, other)
    }

    fn iter(self) -> ArrayIter<N>
        ensures rest { result.items ≡ ascending (set_of N self.entry) }
        ensures asks { result.asks ≡ 0 }
        ensures span { result.span ≡ in_use N }
        ensures within { result.span ≤ in_use N }
    {
        ArrayIter::over(self)
    }

    fn same_iter(iter: &ArrayIter<N>) -> ArrayIter<N>
        ensures { result ≡ iter.now }
    {
        iter.same()
    }

    fn word(&self, i: usize) -> u64 {
        self.words()[i]
    }

    fn put_word(&mut self, i: usize, w: u64) {
        self.0[i] = w;
    }

    ghost represents = { record {
      no_member = set_of_none N;
      within = within N;
      inverse = inverse N;
      represented = represented N;
      is_value = is_value N;
      word_count = width_words N;
      equal = equal N;
      ordered = compare_is N;
    } };

    ghost operators = { by_sets };

    ghost listed = { listed };

    ghost counts = { counted };
}

impl<const N: usize> InjectiveHash for ArrayRepr<N> {
    ghost injective = { same_hash N };
}
