//! The iterator over the members of a mixed set.
//!
//! `EnumSetIter` of `enumset_sets` is its twin: a change here is mostly due there, too.

ghost use Rattle.std.specs.Prelude.{◌≡◌, length};
ghost use Rattle.std.specs.Iterator.{YieldsFirstBy, YieldsLastBy, item_count};
ghost use Rattle.enumset_repr.specs.Asks.{BoundsAsks, IsFresh};
ghost use Rattle.enumset_repr.specs.BitSet as set;
ghost use Rattle.enumset_sets.specs.Elements.{valid_bits};
ghost use Rattle.enumset_sets.specs.Laws.Calls.{FewAscend};
ghost use Rattle.enumset_mixed.specs.Mixed.{bit_with_validity, with_validity};

use crate::mixed_value::{MixedValue, value_of};
use enumset_repr::EnumSetTypeRepr;
use enumset_sets::{EnumSetType, EnumSetTypeWithRepr};
use std::alloc::AllocError;
use std::fmt;
use std::marker::Model;

/// An iterator over the members of a mixed set, ascending by bit: the element for a valid bit, the number for an
/// unknown one.
///
/// The struct mirrors `MixedEnumSetIter` of Rust's `enumset`. Contracts see the list of the bits left, the count of
/// asks (counted reads of a word), and the span: how many asks the iterator may still make beyond one for each member
/// left. So k steps, from either end, make at most k asks plus the span. Once one end has yielded `None`, both ends
/// yield `None` from then on.
pub struct MixedEnumSetIter<T: EnumSetType> {
    iter: <T::Repr as EnumSetTypeRepr>::Iter,
}

impl<T: EnumSetType> Model for MixedEnumSetIter<T> {
    ghost use Rattle.enumset_repr.specs.Asks.{IterView};
    ghost use Rattle.enumset_sets.specs.Laws.Calls.{FewAscend};

    ghost Value = { IterView };

    ghost view = { λ i. record { items = T.Repr.rest i.iter; asks = T.Repr.asks i.iter; span = T.Repr.span i.iter } };

    ghost invariant = { λ i. FewAscend (T.Repr.rest i.iter) };
}

impl<T: EnumSetType> Drop for MixedEnumSetIter<T> {
    fn drop(self) {
        let MixedEnumSetIter { iter: _iter } = self;
    }
}

impl<T: EnumSetType> MixedEnumSetIter<T> {
    /// Returns the iterator over the members of a value.
    pub(crate) fn over(repr: T::Repr) -> MixedEnumSetIter<T>
        ensures { IsFresh (set.ascending (T.Repr.members repr)) T.Repr.PREFERRED_ARRAY_LEN result }
    {
        // Tells the proof that each member is below the width, which is a `u32`.
        repr.learn_is_value();
        let _width = T::Repr::WIDTH;
        MixedEnumSetIter { iter: repr.iter() }
    }

    /// Tells the proof that the bits left ascend, and that they are fewer than 2^32. The call does nothing at run time.
    #[inline]
    pub(crate) fn learn_left(&self)
        ensures { FewAscend self.now.items }
    {
        // The proof learns the invariant of the type from a read.
        let _iter = &self.iter;
    }
}

/// `clone` returns an iterator with the same members left, and never fails.
impl<T: EnumSetType> Clone for MixedEnumSetIter<T> {
    ghost use Rattle.std.specs.Prelude.{◌≡◌, ⊤};

    ghost is_clone = { λ i j. j ≡ i };

    ghost is_infallible = { λ _. ⊤ };

    fn clone(&self) -> Result<MixedEnumSetIter<T>, AllocError> {
        Ok(MixedEnumSetIter {
            iter: T::Repr::same_iter(&self.iter),
        })
    }
}

impl<T: EnumSetType> fmt::Debug for MixedEnumSetIter<T> {
    fn fmt<W: fmt::Write>(&self, f: &mut fmt::Formatter<W>) -> fmt::Result {
        f.debug_struct("MixedEnumSetIter")
            .field("iter", &self.iter)
            .finish()
    }
}

impl<T: EnumSetTypeWithRepr> Iterator for MixedEnumSetIter<T> {
    type Item = MixedValue<T>;

    ghost next_gives = { λ i r j. YieldsFirstBy (bit_with_validity T.elements.bit)
        (λ i. with_validity (valid_bits T.elements) i.items) i r j
        × BoundsAsks i.asks i.span r j.asks j.span };

    ghost remaining = { item_count (λ i. i.items) };

    /// Takes out the member of the least bit left and returns it, or returns `None` if no member is left.
    /// The sum of asks and span grows by at most one if a member is returned, and not at all otherwise.
    fn next(&mut self) -> Option<MixedValue<T>> {
        let bit = self.iter.next()?;
        Some(value_of(bit))
    }

    /// Returns exactly how many members are left.
    fn size_hint(&self) -> (usize, Option<usize>)
        ensures lower { result.0 ≡ length self.now.items }
        ensures upper { result.1 ≡ Some (length self.now.items) }
    {
        let left = T::Repr::items_left(&self.iter);
        (left, Some(left))
    }
}

impl<T: EnumSetTypeWithRepr> DoubleEndedIterator for MixedEnumSetIter<T> {
    ghost next_back_gives = { λ i r j. YieldsLastBy (bit_with_validity T.elements.bit)
        (λ i. with_validity (valid_bits T.elements) i.items) i r j
        × BoundsAsks i.asks i.span r j.asks j.span };

    /// Takes out the member of the greatest bit left and returns it, or returns `None` if no member is left.
    /// The sum of asks and span grows by at most one if a member is returned, and not at all otherwise.
    fn next_back(&mut self) -> Option<MixedValue<T>> {
        let bit = self.iter.next_back()?;
        Some(value_of(bit))
    }
}

impl<T: EnumSetTypeWithRepr> ExactSizeIterator for MixedEnumSetIter<T> {
    /// Returns the number of members left.
    fn len(&self) -> usize {
        T::Repr::items_left(&self.iter)
    }
}
