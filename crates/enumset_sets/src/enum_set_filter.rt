//! The iterator over the elements of a set for which a closure returns true.

ghost use Rattle.std.specs.Prelude.{◌≡◌, IfOk, List, map};
ghost use Rattle.std.specs.Fn.{CalledAt};
ghost use Rattle.std.specs.Iterator.{CallableOnAllAt, HoldsAlong};
ghost use Rattle.std.specs.Iterator.Adapters.{filter_source, filter_callee, filter_steps};
ghost use Rattle.std.specs.Iterator.Runs.{CallKeepsClosure};
ghost use Rattle.enumset_repr.specs.BitSet as set;
ghost use Rattle.enumset_repr.specs.BitSet.{BitSet};
ghost use Rattle.enumset_sets.specs.Calls.{FilterCollects, FilterCounts, FilterRuns, IsLenOf, left, Selects, steps};

use crate::element::EnumSetType;
use crate::enum_set_iter::EnumSetIter;
use std::alloc::AllocError;
use std::iter::Filter;
use std::marker::Model;

/// An iterator over the elements for which a closure returns true, ascending by bit. The closure is called when an
/// element is taken, and not before.
///
/// [`EnumSetIter::filter`] returns such an iterator, in place of std's `Filter`, and contracts see it as a `Filter`.
#[derive(Drop)]
pub struct EnumSetFilter<T: EnumSetType, P: FnMut(&T) -> bool> {
    filter: Filter<EnumSetIter<T>, P>,
}

impl<T: EnumSetType, P: FnMut(&T) -> bool> Model for EnumSetFilter<T, P> {
    ghost use Rattle.std.specs.Prelude.{◌<◌, ◌^◌, length};
    ghost use Rattle.std.specs.Iterator.Adapters.{filter_source};
    ghost use Rattle.std.specs.declared.iter.Filter.{Filter};
    ghost use Rattle.enumset_repr.specs.Laws.Ascending.{AscendsFrom};
    ghost use Rattle.enumset_repr.specs.Asks.{IterView};

    ghost Value = { Filter IterView P };

    ghost view = { λ f. f.filter };

    ghost invariant = { λ f. AscendsFrom 0 (filter_source f.filter).items
        × (length (filter_source f.filter).items < 2 ^ 32) };
}

impl<T: EnumSetType, P: FnMut(&T) -> bool> Iterator for EnumSetFilter<T, P> {
    type Item = T;

    ghost can_next = { λ s. CallableOnAllAt ⟦<EnumSetIter<T> as Iterator>⟧.next_gives P.FnMut (filter_source s) (filter_callee s) };

    ghost next_gives = { filter_steps ⟦<EnumSetIter<T> as Iterator>⟧.next_gives P.FnMut };

    ghost remaining = { λ s. ⟦<EnumSetIter<T> as Iterator>⟧.remaining (filter_source s) };

    fn next(&mut self) -> Option<T> {
        self.filter.next()
    }

    fn size_hint(&self) -> (usize, Option<usize>) {
        self.filter.size_hint()
    }
}

impl<T: EnumSetType, P: FnMut(&T) -> bool> DoubleEndedIterator for EnumSetFilter<T, P> {
    ghost can_next_back = { λ s. CallableOnAllAt ⟦<EnumSetIter<T> as DoubleEndedIterator>⟧.next_back_gives P.FnMut (filter_source s) (filter_callee s) };

    ghost next_back_gives = { filter_steps ⟦<EnumSetIter<T> as DoubleEndedIterator>⟧.next_back_gives P.FnMut };

    fn next_back(&mut self) -> Option<T> {
        self.filter.next_back()
    }
}

/// The calls that end a chain, with contracts about the set. They do what those of `Iterator` do. The clause `selected`
/// holds where no call changes what the closure captured; `calls` says in any case which elements were taken.
impl<T: EnumSetType, P: FnMut(&T) -> bool> EnumSetFilter<T, P> {
    /// Returns an iterator over the elements of another for which a closure returns true.
    pub(crate) fn of(iter: EnumSetIter<T>, predicate: P) -> EnumSetFilter<T, P>
        ensures source { filter_source result ≡ iter }
        ensures closure { filter_callee result ≡ predicate }
        ensures runs { FilterRuns (steps T.elements.bit) P.FnMut iter predicate result }
    {
        iter.learn_left();
        EnumSetFilter {
            filter: Iterator::filter(iter, predicate),
        }
    }

    /// Returns the number of elements for which the closure returns true. The closure is called once for each element
    /// left, ascending by bit.
    pub fn count(self) -> usize
        requires { CallableOnAllAt ⟦<EnumSetIter<T> as Iterator>⟧.next_gives P.FnMut (filter_source self) (filter_callee self) }
        ensures calls { FilterCounts (steps T.elements.bit) P.FnMut self result }
        ensures selected { CallKeepsClosure P.FnMut (filter_callee self) → (kept : BitSet)
            × Selects T.elements.bit (λ t b. CalledAt P.FnMut (filter_callee self) t b (filter_callee self))
            (left (filter_source self)) kept
            × IsLenOf kept result }
    {
        self.filter.count()
    }

    /// Returns a collection of the elements for which the closure returns true, ascending by bit, or `AllocError` if
    /// there is no memory for them.
    pub fn collect<B: FromIterator<T>>(self, alloc: B::Alloc) -> Result<B, AllocError>
        requires can { CallableOnAllAt ⟦<EnumSetIter<T> as Iterator>⟧.next_gives P.FnMut (filter_source self) (filter_callee self) }
        requires can_collect { HoldsAlong (filter_steps ⟦<EnumSetIter<T> as Iterator>⟧.next_gives P.FnMut) self B.can_from_iter }
        ensures calls { FilterCollects (steps T.elements.bit) P.FnMut B.is_complete B.from_iter_gives self result }
        ensures selected { CallKeepsClosure P.FnMut (filter_callee self) → IfOk result (λ v. B.is_complete v → (kept : BitSet) × (ts : List T)
            × Selects T.elements.bit (λ t b. CalledAt P.FnMut (filter_callee self) t b (filter_callee self))
            (left (filter_source self)) kept
            × (map T.elements.bit ts ≡ set.ascending kept) × (set.from_list (map T.elements.bit ts) ≡ kept)
            × B.from_iter_gives ts v) }
    {
        self.filter.collect(alloc)
    }
}
