//! The words that an `ArrayIter` takes its bits from.

ghost use Rattle.std.specs.Prelude.{◌≡◌, ◌∷◌, [], ◌++◌, length, None, MatchOption};
ghost use Rattle.enumset_repr.specs.BitSet.{ascending};
ghost use Rattle.enumset_repr.specs.Number.{bits};
ghost use Rattle.enumset_array.specs.ArrayWords.{words_in_use};
ghost use Rattle.enumset_array.specs.Items.{items_of};

use crate::array_repr::{ArrayRepr, WORD_LIMIT};
use crate::row::Row;
use enumset_repr::{Asks, EnumSetTypeRepr, PrimitiveIter};
use std::fmt::{Debug, Error, Formatter, Write};
use std::marker::Model;

/// The words in use of an `ArrayRepr`, from which an iterator takes the bits.
#[derive(Drop)]
pub(crate) struct Words<const N: usize> {
    repr: ArrayRepr<N>,
    asks: Asks,
}

impl<const N: usize> Model for Words<N> {
    ghost use Rattle.enumset_array.specs.Views.{RowView};
    ghost use Rattle.enumset_array.specs.ArrayWords.{words_in_use, IsArrayRepr};

    ghost Value = { RowView };

    ghost view = { λ r. record { words = words_in_use N r.repr; asks = r.asks } };

    ghost invariant = { λ r. IsArrayRepr N r.repr };
}

impl<const N: usize> Words<N> {
    /// Returns the words in use of an `ArrayRepr`, with a count of 0 asks.
    pub(crate) fn new(repr: ArrayRepr<N>) -> Self
        ensures { result ≡ record { words = words_in_use N repr.entry; asks = 0 } }
    {
        // A move alone does not tell the proof that the words have 64 bits.
        repr.learn_is_value();
        Words {
            repr,
            asks: Asks::new(),
        }
    }

    /// Returns the same words, with the same count of asks.
    pub(crate) fn same(&self) -> Self
        ensures { result ≡ self.now }
    {
        Words {
            repr: self.repr,
            asks: self.asks.same(),
        }
    }

    /// Returns the number of bits left. This call is not an ask.
    pub(crate) fn bits_left(&self) -> usize
        ensures { result ≡ length (items_of self.now.words) }
    {
        self.repr.count_ones() as usize
    }
}

#[tactic(auto, unfolding(crate::specs::ArrayWords::is_zero_past))]
impl<const N: usize> Row for Words<N> {
    ghost words = { λ r. r.words };

    ghost asks = { λ r. r.asks };

    fn word_count(&self) -> usize {
        // This read tells the proof that the words are those of an `ArrayRepr`.
        let _words = &self.repr;
        N % WORD_LIMIT
    }

    fn ask_front(&mut self, i: usize) -> Option<u32> {
        self.asks.raise();
        take_least(&mut self.repr.0[i])
    }

    fn ask_back(&mut self, i: usize) -> Option<u32> {
        self.asks.raise();
        take_greatest(&mut self.repr.0[i])
    }
}

impl<const N: usize> Debug for Words<N> {
    /// Each word is written as the iterator over its bits.
    fn fmt<W: Write>(&self, f: &mut Formatter<W>) -> Result<(), Error> {
        let mut words = [PrimitiveIter(0); N];
        for i in 0..N {
            words[i] = PrimitiveIter(self.repr.0[i]);
        }
        f.debug_struct("Words")
            .field("words", &words)
            .field("asks", &self.asks)
            .finish()
    }
}

/// Takes out the least bit of a word and returns it, or returns `None` if the word is 0.
fn take_least(word: &mut u64) -> Option<u32>
    ensures bit { MatchOption result (word.old ≡ 0) (λ b. ascending (bits word.old) ≡ b ∷ ascending (bits word.new)) }
    ensures unchanged { result ≡ None → word.new ≡ word.old }
{
    let bits = *word;
    if bits == 0 {
        return None;
    }
    *word = bits & (bits - 1);
    Some(bits.trailing_zeros())
}

/// Takes out the greatest bit of a word and returns it, or returns `None` if the word is 0.
fn take_greatest(word: &mut u64) -> Option<u32>
    ensures bit { MatchOption result (word.old ≡ 0)
        (λ b. ascending (bits word.old) ≡ ascending (bits word.new) ++ b ∷ []) }
    ensures unchanged { result ≡ None → word.new ≡ word.old }
{
    let bits = *word;
    if bits == 0 {
        return None;
    }
    let greatest = 63 - bits.leading_zeros();
    *word = bits & !(1 << greatest);
    Some(greatest)
}
