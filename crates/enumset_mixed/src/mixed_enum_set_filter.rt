//! The iterator over the members of a mixed set for which a closure returns true.
//!
//! `EnumSetFilter` of `enumset_sets` is its twin: a change here is mostly due there, too.

ghost use Rattle.std.specs.Prelude.{◌≡◌, IfOk, List, map};
ghost use Rattle.std.specs.Fn.{CalledAt};
ghost use Rattle.std.specs.Iterator.{CallableOnAllAt, HoldsAlong};
ghost use Rattle.std.specs.Iterator.Adapters.{filter_source, filter_callee, filter_steps};
ghost use Rattle.std.specs.Iterator.Runs.{CallKeepsClosure};
ghost use Rattle.enumset_repr.specs.BitSet as set;
ghost use Rattle.enumset_repr.specs.BitSet.{BitSet};
ghost use Rattle.enumset_sets.specs.Calls.{FilterCollects, FilterCounts, FilterRuns, IsLenOf, left, SelectsAt};
ghost use Rattle.enumset_sets.specs.Elements.{valid_bits};
ghost use Rattle.enumset_mixed.specs.Calls.{HasBit, item_steps};
ghost use Rattle.enumset_mixed.specs.Mixed.{bit_with_validity, with_validity};

use crate::mixed_enum_set_iter::MixedEnumSetIter;
use crate::mixed_value::MixedValue;
use enumset_sets::EnumSetTypeWithRepr;
use std::alloc::AllocError;
use std::iter::Filter;
use std::marker::Model;

/// An iterator over the members for which a closure returns true, ascending by bit. The closure is called when a
/// member is taken, and not before.
///
/// [`MixedEnumSetIter::filter`] returns such an iterator, in place of std's `Filter`, and contracts see it as a
/// `Filter`.
#[derive(Drop)]
pub struct MixedEnumSetFilter<T: EnumSetTypeWithRepr, P: FnMut(&MixedValue<T>) -> bool> {
    filter: Filter<MixedEnumSetIter<T>, P>,
}

impl<T: EnumSetTypeWithRepr, P: FnMut(&MixedValue<T>) -> bool> Model for MixedEnumSetFilter<T, P> {
    ghost use Rattle.std.specs.Iterator.Adapters.{filter_source};
    ghost use Rattle.std.specs.declared.iter.Filter.{Filter};
    ghost use Rattle.enumset_repr.specs.Asks.{IterView};
    ghost use Rattle.enumset_sets.specs.Laws.Calls.{FewAscend};

    ghost Value = { Filter IterView P };

    ghost view = { λ f. f.filter };

    ghost invariant = { λ f. FewAscend (filter_source f.filter).items };
}

impl<T: EnumSetTypeWithRepr, P: FnMut(&MixedValue<T>) -> bool> Iterator
    for MixedEnumSetFilter<T, P> {
    type Item = MixedValue<T>;

    ghost can_next = { λ s. CallableOnAllAt ⟦<MixedEnumSetIter<T> as Iterator>⟧.next_gives P.FnMut (filter_source s) (filter_callee s) };

    ghost next_gives = { filter_steps ⟦<MixedEnumSetIter<T> as Iterator>⟧.next_gives P.FnMut };

    ghost remaining = { λ s. ⟦<MixedEnumSetIter<T> as Iterator>⟧.remaining (filter_source s) };

    fn next(&mut self) -> Option<MixedValue<T>> {
        self.filter.next()
    }

    fn size_hint(&self) -> (usize, Option<usize>) {
        self.filter.size_hint()
    }
}

impl<T: EnumSetTypeWithRepr, P: FnMut(&MixedValue<T>) -> bool> DoubleEndedIterator
    for MixedEnumSetFilter<T, P> {
    ghost can_next_back = { λ s. CallableOnAllAt ⟦<MixedEnumSetIter<T> as DoubleEndedIterator>⟧.next_back_gives P.FnMut (filter_source s) (filter_callee s) };

    ghost next_back_gives = { filter_steps ⟦<MixedEnumSetIter<T> as DoubleEndedIterator>⟧.next_back_gives P.FnMut };

    fn next_back(&mut self) -> Option<MixedValue<T>> {
        self.filter.next_back()
    }
}

/// The calls that end a chain, with contracts about the set of the bits, valid and unknown. They do what those of
/// `Iterator` do. The clause `selected` holds where no call changes what the closure captured; `calls` says in any case
/// which members were taken.
impl<T: EnumSetTypeWithRepr, P: FnMut(&MixedValue<T>) -> bool> MixedEnumSetFilter<T, P> {
    /// Returns an iterator over the members that another yields for which a closure returns true.
    pub(crate) fn of(iter: MixedEnumSetIter<T>, predicate: P) -> MixedEnumSetFilter<T, P>
        ensures source { filter_source result ≡ iter }
        ensures closure { filter_callee result ≡ predicate }
        ensures runs { FilterRuns (item_steps T.elements) P.FnMut iter predicate result }
    {
        iter.learn_left();
        MixedEnumSetFilter {
            filter: Iterator::filter(iter, predicate),
        }
    }

    /// Returns the number of members for which the closure returns true. The closure is called once for each member
    /// left, ascending by bit.
    pub fn count(self) -> usize
        requires { CallableOnAllAt ⟦<MixedEnumSetIter<T> as Iterator>⟧.next_gives P.FnMut (filter_source self) (filter_callee self) }
        ensures calls { FilterCounts (item_steps T.elements) P.FnMut self result }
        ensures selected { CallKeepsClosure P.FnMut (filter_callee self) → (kept : BitSet)
            × SelectsAt (HasBit T.elements) (λ m b. CalledAt P.FnMut (filter_callee self) m b (filter_callee self))
            (left (filter_source self)) kept
            × IsLenOf kept result }
    {
        self.filter.count()
    }

    /// Returns a collection of the members for which the closure returns true, ascending by bit, or `AllocError` if
    /// there is no memory for them.
    pub fn collect<B: FromIterator<MixedValue<T>>>(self, alloc: B::Alloc) -> Result<B, AllocError>
        requires can { CallableOnAllAt ⟦<MixedEnumSetIter<T> as Iterator>⟧.next_gives P.FnMut (filter_source self) (filter_callee self) }
        requires can_collect { HoldsAlong (filter_steps ⟦<MixedEnumSetIter<T> as Iterator>⟧.next_gives P.FnMut) self B.can_from_iter }
        ensures calls { FilterCollects (item_steps T.elements) P.FnMut B.is_complete B.from_iter_gives self result }
        ensures selected { CallKeepsClosure P.FnMut (filter_callee self) → IfOk result (λ v. B.is_complete v → (kept : BitSet) × (ms : List _)
            × SelectsAt (HasBit T.elements) (λ m b. CalledAt P.FnMut (filter_callee self) m b (filter_callee self))
            (left (filter_source self)) kept
            × (map (bit_with_validity T.elements.bit) ms ≡ with_validity (valid_bits T.elements) (set.ascending kept))
            × B.from_iter_gives ms v) }
    {
        self.filter.collect(alloc)
    }
}
