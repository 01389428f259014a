//! The iterator of the representation of many words.

ghost use Rattle.std.specs.Prelude.{◌≡◌, length, IfSome, Some, ⊤};
ghost use Rattle.std.specs.Iterator.{YieldsFirst, YieldsLast, item_count, at_most, UpTo};
ghost use Rattle.std.specs.Iterator.SizeHint.{IsWithinCount};
ghost use Rattle.enumset_repr.specs.BitSet.{ascending};
ghost use Rattle.enumset_array.specs.OneStep.{CountsAsks};
ghost use Rattle.enumset_array.specs.ArrayWords.{in_use, set_of};

use crate::array_repr::ArrayRepr;
use crate::cursors::{Cursors, step_back, step_front};
use crate::row::Row;
use crate::words::Words;
use std::alloc::AllocError;
use std::marker::Model;

/// An iterator over the members of an `ArrayRepr`, each once, ascending, from both ends.
///
/// The struct mirrors `ArrayIter` of Rust's `enumset`. Contracts see the items left, the count of asks, and the span,
/// which is the number of words between the cursors.
#[derive(Drop, Debug)]
pub struct ArrayIter<const N: usize> {
    row: Words<N>,
    cursors: Cursors,
}

impl<const N: usize> Model for ArrayIter<N> {
    ghost use Rattle.enumset_repr.specs.Asks.{IterView};
    ghost use Rattle.enumset_array.specs.Cursors.{span, Covers};
    ghost use Rattle.enumset_array.specs.Items.{items_of};

    ghost Value = { IterView };

    ghost view = { λ i. record { items = items_of i.row.words; asks = i.row.asks; span = span i.cursors } };

    ghost invariant = { λ i. Covers i.row.words i.cursors };
}

impl<const N: usize> ArrayIter<N> {
    /// Returns an iterator over the members of an `ArrayRepr`. It has made no ask, and its span is the number of words
    /// in use.
    pub(crate) fn over(repr: ArrayRepr<N>) -> Self
        ensures items { result.items ≡ ascending (set_of N repr.entry) }
        ensures asks { result.asks ≡ 0 }
        ensures span { result.span ≡ in_use N }
    {
        let row = Words::new(repr);
        let cursors = Cursors::over(row.word_count());
        ArrayIter { row, cursors }
    }

    /// Returns an iterator with the same items, count of asks and cursors.
    pub(crate) fn same(&self) -> Self
        ensures { result ≡ self.now }
    {
        ArrayIter {
            row: self.row.same(),
            cursors: self.cursors,
        }
    }
}

impl<const N: usize> Iterator for ArrayIter<N> {
    type Item = u32;

    ghost next_gives = { λ i r j. YieldsFirst (λ i. i.items) i r j × CountsAsks i.asks i.span r j.asks j.span };

    ghost remaining = { item_count (λ i. i.items) };

    /// Takes out the least item that is left and returns it, or returns `None` if no item is left. The sum of asks and
    /// span grows by one if an item is returned, and stays otherwise, as by [`step_front`].
    fn next(&mut self) -> Option<u32> {
        step_front(&mut self.row, &mut self.cursors)
    }

    /// Returns exactly how many items are left.
    fn size_hint(&self) -> (usize, Option<usize>)
        ensures exact { result ≡ (length self.now.items, Some (length self.now.items)) }
        ensures lower { IsWithinCount result.0 (at_most (length self.now.items)) }
        ensures upper { IfSome result.1 (UpTo (at_most (length self.now.items))) }
    {
        let left = self.len();
        (left, Some(left))
    }
}

impl<const N: usize> DoubleEndedIterator for ArrayIter<N> {
    ghost next_back_gives = { λ i r j. YieldsLast (λ i. i.items) i r j × CountsAsks i.asks i.span r j.asks j.span };

    /// Takes out the greatest item that is left and returns it, or returns `None` if no item is left. The sum of asks
    /// and span grows by one if an item is returned, and stays otherwise, as by [`step_back`].
    fn next_back(&mut self) -> Option<u32> {
        step_back(&mut self.row, &mut self.cursors)
    }
}

impl<const N: usize> ExactSizeIterator for ArrayIter<N> {
    /// Returns the number of items left. This call makes no ask.
    fn len(&self) -> usize {
        self.row.bits_left()
    }
}

/// `clone` returns an iterator with the same items left, count of asks and cursors, and never fails.
impl<const N: usize> Clone for ArrayIter<N> {
    ghost is_clone = { λ it copy. copy ≡ it };

    ghost is_infallible = { λ _. ⊤ };

    fn clone(&self) -> Result<Self, AllocError> {
        Ok(self.same())
    }
}
