//! The iterator over a set's elements.
//!
//! `MixedEnumSetIter` of `enumset_mixed` is its twin: a change here is mostly due there, too.

ghost use Rattle.std.specs.Prelude.{◌≡◌, ◌<◌, ◌^◌, length, IsTrue};
ghost use Rattle.std.specs.Iterator.{YieldsFirstBy, YieldsLastBy, item_count};
ghost use Rattle.enumset_repr.specs.Asks.{BoundsAsks, IsFresh};
ghost use Rattle.enumset_repr.specs.BitSet as set;
ghost use Rattle.enumset_repr.specs.Laws.Ascending.{AscendsFrom};
ghost use Rattle.enumset_sets.specs.Elements.{valid_bits};

use crate::element::EnumSetType;
use crate::raw::learn_valid_bits;
use enumset_repr::EnumSetTypeRepr;
use std::alloc::AllocError;
use std::fmt;
use std::marker::Model;

/// An iterator over the elements of a set, ascending by bit.
///
/// The struct mirrors `EnumSetIter` of Rust's `enumset`. Contracts see the list of the bits left, the count of asks
/// (counted reads of a word), and the span: how many asks the iterator may still make beyond one for each element left.
/// So k steps, from either end, make at most k asks plus the span. Once one end has yielded `None`, both ends yield
/// `None` from then on.
pub struct EnumSetIter<T: EnumSetType> {
    iter: <T::Repr as EnumSetTypeRepr>::Iter,
}

impl<T: EnumSetType> Model for EnumSetIter<T> {
    ghost use Rattle.enumset_repr.specs.Asks.{IterView};
    ghost use Rattle.enumset_sets.specs.Elements.{AreLeft};

    ghost Value = { IterView };

    ghost view = { λ i. record { items = T.Repr.rest i.iter; asks = T.Repr.asks i.iter; span = T.Repr.span i.iter } };

    ghost invariant = { λ i. AreLeft (T.Repr.rest i.iter) T.elements.bit_list };
}

impl<T: EnumSetType> Drop for EnumSetIter<T> {
    fn drop(self) {
        let EnumSetIter { iter: _iter } = self;
    }
}

impl<T: EnumSetType> EnumSetIter<T> {
    /// Returns the iterator over the members of a value, which must be valid bits.
    pub(crate) fn over(repr: T::Repr) -> EnumSetIter<T>
        requires { IsTrue (set.is_subset (T.Repr.members repr) (valid_bits T.elements)) }
        ensures { IsFresh (set.ascending (T.Repr.members repr)) T.Repr.PREFERRED_ARRAY_LEN result }
    {
        EnumSetIter { iter: repr.iter() }
    }

    /// Tells the proof that the bits left ascend, and that they are fewer than 2^32. The call does nothing at run time.
    #[inline]
    pub(crate) fn learn_left(&self)
        ensures ascends { AscendsFrom 0 self.now.items }
        ensures fits { length self.now.items < 2 ^ 32 }
    {
        learn_valid_bits::<T>();
        // The proof learns the invariant of the type from a read.
        let _iter = &self.iter;
    }
}

/// `clone` returns an iterator with the same elements left, and never fails.
impl<T: EnumSetType> Clone for EnumSetIter<T> {
    ghost use Rattle.std.specs.Prelude.{◌≡◌, ⊤};

    ghost is_clone = { λ i j. j ≡ i };

    ghost is_infallible = { λ _. ⊤ };

    fn clone(&self) -> Result<EnumSetIter<T>, AllocError> {
        Ok(EnumSetIter {
            iter: T::Repr::same_iter(&self.iter),
        })
    }
}

impl<T: EnumSetType> fmt::Debug for EnumSetIter<T> {
    fn fmt<W: fmt::Write>(&self, f: &mut fmt::Formatter<W>) -> fmt::Result {
        f.debug_struct("EnumSetIter")
            .field("iter", &self.iter)
            .finish()
    }
}

#[tactic(auto, unfolding(crate::specs::Elements::AreBitsOf))]
impl<T: EnumSetType> Iterator for EnumSetIter<T> {
    type Item = T;

    ghost next_gives = { λ i r j. YieldsFirstBy T.elements.bit (λ i. i.items) i r j
        × BoundsAsks i.asks i.span r j.asks j.span };

    ghost remaining = { item_count (λ i. i.items) };

    /// Takes out the element of the least bit left and returns it, or returns `None` if no element is left.
    /// The sum of asks and span grows by at most one if an element is returned, and not at all otherwise.
    fn next(&mut self) -> Option<T> {
        let bit = self.iter.next()?;
        Some(T::enum_from_u32(bit))
    }

    /// Returns exactly how many elements are left.
    fn size_hint(&self) -> (usize, Option<usize>)
        ensures lower { result.0 ≡ length self.now.items }
        ensures upper { result.1 ≡ Some (length self.now.items) }
    {
        let left = T::Repr::items_left(&self.iter);
        (left, Some(left))
    }
}

#[tactic(auto, unfolding(crate::specs::Elements::AreBitsOf))]
impl<T: EnumSetType> DoubleEndedIterator for EnumSetIter<T> {
    ghost next_back_gives = { λ i r j. YieldsLastBy T.elements.bit (λ i. i.items) i r j
        × BoundsAsks i.asks i.span r j.asks j.span };

    /// Takes out the element of the greatest bit left and returns it, or returns `None` if no element is left.
    /// The sum of asks and span grows by at most one if an element is returned, and not at all otherwise.
    fn next_back(&mut self) -> Option<T> {
        let bit = self.iter.next_back()?;
        Some(T::enum_from_u32(bit))
    }
}

impl<T: EnumSetType> ExactSizeIterator for EnumSetIter<T> {
    /// Returns the number of elements left.
    fn len(&self) -> usize {
        T::Repr::items_left(&self.iter)
    }
}
