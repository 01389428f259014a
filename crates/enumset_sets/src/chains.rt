//! The calls with which chains over the elements of a set begin.

ghost use Rattle.std.specs.Prelude.{◌≡◌, ◌<◌, ℕ, true, false, List, map, MatchOption, IfOk};
ghost use Rattle.std.specs.Bool.{MatchBool};
ghost use Rattle.std.specs.Option.{option_map};
ghost use Rattle.std.specs.Fn.{Called, CalledAt};
ghost use Rattle.std.specs.Iterator.Adapters.{filter_source, filter_callee};
ghost use Rattle.std.specs.Iterator.{HoldsAlong, DrainsIf, CallableWhile, CallableWhileAt};
ghost use Rattle.std.specs.Iterator.Runs.{CallKeepsClosure};
ghost use Rattle.enumset_repr.specs.BitSet as set;
ghost use Rattle.enumset_repr.specs.Ends.{greatest};
ghost use Rattle.enumset_sets.specs.Calls.{AllCalls, AnyCalls, EachGives, FilterRuns, FindCalls, left, OneGives, PositionCalls, steps, steps_back};

use crate::element::EnumSetType;
use crate::enum_set_filter::EnumSetFilter;
use crate::enum_set_iter::EnumSetIter;
use std::alloc::AllocError;

/// The calls of `Iterator` with which chains over a set begin. They do what those of std do, and take the place of
/// those: their contracts are about the set of the bits left, so that what a chain returns can be stated by sets. What
/// the contracts say of elements holds where no call changes what the closure captured; the clause `calls` says in any
/// case which calls are made.
impl<T: EnumSetType> EnumSetIter<T> {
    /// Returns whether `f` returns true for each element left. It calls `f` from the front, up to the first element
    /// for which it returns false.
    pub fn all<F: FnMut(T) -> bool>(&mut self, f: F) -> bool
        requires { CallableWhile ⟦<EnumSetIter<T> as Iterator>⟧.next_gives F.FnMut true self.old f }
        ensures calls { AllCalls (steps T.elements.bit) F.FnMut self.old f result self.new }
        ensures elements { CallKeepsClosure F.FnMut f → MatchBool result
            (EachGives T.elements.bit (λ t b. Called F.FnMut f (t, tt) b f) (left self.old) true)
            (OneGives T.elements.bit (λ t b. Called F.FnMut f (t, tt) b f) (left self.old) false) }
    {
        Iterator::all(self, f)
    }

    /// Returns whether `f` returns true for an element left. It calls `f` from the front, up to the first element for
    /// which it returns true.
    pub fn any<F: FnMut(T) -> bool>(&mut self, f: F) -> bool
        requires { CallableWhile ⟦<EnumSetIter<T> as Iterator>⟧.next_gives F.FnMut false self.old f }
        ensures calls { AnyCalls (steps T.elements.bit) F.FnMut self.old f result self.new }
        ensures elements { CallKeepsClosure F.FnMut f → MatchBool result
            (OneGives T.elements.bit (λ t b. Called F.FnMut f (t, tt) b f) (left self.old) true)
            (EachGives T.elements.bit (λ t b. Called F.FnMut f (t, tt) b f) (left self.old) false) }
    {
        Iterator::any(self, f)
    }

    /// Returns the first element left for which `predicate` returns true, or `None` if there is none. It calls
    /// `predicate` from the front, up to this element, which has the least bit of those that pass.
    pub fn find<P: FnMut(&T) -> bool>(&mut self, predicate: P) -> Option<T>
        requires { CallableWhileAt ⟦<EnumSetIter<T> as Iterator>⟧.next_gives P.FnMut false self.old predicate }
        ensures calls { FindCalls (steps T.elements.bit) P.FnMut self.old predicate result self.new }
        ensures element { CallKeepsClosure P.FnMut predicate → MatchOption result
            (EachGives T.elements.bit (λ t b. CalledAt P.FnMut predicate t b predicate) (left self.old) false)
            (λ t. (set.contains (left self.old) (T.elements.bit t) ≡ true)
            × CalledAt P.FnMut predicate t true predicate
            × ((q : ℕ) → set.contains (left self.old) q ≡ true → q < T.elements.bit t
            → (u : T) × (T.elements.bit u ≡ q) × CalledAt P.FnMut predicate u false predicate)) }
    {
        self.learn_left();
        Iterator::find(self, predicate)
    }

    /// Returns the last element left for which `predicate` returns true, or `None` if there is none. It calls
    /// `predicate` from the back, down to this element, which has the greatest bit of those that pass.
    pub fn rfind<P: FnMut(&T) -> bool>(&mut self, predicate: P) -> Option<T>
        requires { CallableWhileAt ⟦<EnumSetIter<T> as DoubleEndedIterator>⟧.next_back_gives P.FnMut false self.old predicate }
        ensures calls { FindCalls (steps_back T.elements.bit) P.FnMut self.old predicate result self.new }
        ensures element { CallKeepsClosure P.FnMut predicate → MatchOption result
            (EachGives T.elements.bit (λ t b. CalledAt P.FnMut predicate t b predicate) (left self.old) false)
            (λ t. (set.contains (left self.old) (T.elements.bit t) ≡ true)
            × CalledAt P.FnMut predicate t true predicate
            × ((q : ℕ) → set.contains (left self.old) q ≡ true → T.elements.bit t < q
            → (u : T) × (T.elements.bit u ≡ q) × CalledAt P.FnMut predicate u false predicate)) }
    {
        self.learn_left();
        DoubleEndedIterator::rfind(self, predicate)
    }

    /// Returns the number of elements left before the first one for which `predicate` returns true, or `None` if there
    /// is none. It calls `predicate` from the front, up to this element.
    pub fn position<P: FnMut(T) -> bool>(&mut self, predicate: P) -> Option<usize>
        requires { CallableWhile ⟦<EnumSetIter<T> as Iterator>⟧.next_gives P.FnMut false self.old predicate }
        ensures calls { PositionCalls (steps T.elements.bit) P.FnMut self.old predicate result self.new }
        ensures element { CallKeepsClosure P.FnMut predicate → MatchOption result
            (EachGives T.elements.bit (λ t b. Called P.FnMut predicate (t, tt) b predicate) (left self.old) false)
            (λ i. (t : T) × (set.contains (left self.old) (T.elements.bit t) ≡ true)
            × Called P.FnMut predicate (t, tt) true predicate
            × (i ≡ set.len (set.low (left self.old) (T.elements.bit t)))
            × ((q : ℕ) → set.contains (left self.old) q ≡ true → q < T.elements.bit t
            → (u : T) × (T.elements.bit u ≡ q) × Called P.FnMut predicate (u, tt) false predicate)) }
    {
        self.learn_left();
        Iterator::position(self, predicate)
    }

    /// Returns the number of elements left.
    pub fn count(self) -> usize
        ensures { result ≡ set.len (left self) }
    {
        self.learn_left();
        self.len()
    }

    /// Returns the last element left, which has the greatest bit, or `None` if no element is left.
    pub fn last(self) -> Option<T>
        ensures { option_map T.elements.bit result ≡ greatest (left self) }
    {
        let mut iter = self;
        iter.learn_left();
        iter.next_back()
    }

    /// Returns an iterator over the elements left for which `predicate` returns true. That iterator calls `predicate`
    /// when an element is taken from it, and not before.
    pub fn filter<P: FnMut(&T) -> bool>(self, predicate: P) -> EnumSetFilter<T, P>
        ensures source { filter_source result ≡ self }
        ensures closure { filter_callee result ≡ predicate }
        ensures runs { FilterRuns (steps T.elements.bit) P.FnMut self predicate result }
    {
        EnumSetFilter::of(self, predicate)
    }

    /// Returns a collection of the elements left, ascending by bit, or `AllocError` if there is no memory for them.
    pub fn collect<B: FromIterator<T>>(self, alloc: B::Alloc) -> Result<B, AllocError>
        requires { HoldsAlong ⟦<EnumSetIter<T> as Iterator>⟧.next_gives self B.can_from_iter }
        ensures ran { IfOk result (λ v. (ts : List T)
            × DrainsIf ⟦<EnumSetIter<T> as Iterator>⟧.next_gives (B.is_complete v) self ts × B.from_iter_gives ts v) }
        ensures elements { IfOk result (λ v. B.is_complete v → (ts : List T)
            × (map T.elements.bit ts ≡ self.items) × (set.from_list (map T.elements.bit ts) ≡ left self)
            × B.from_iter_gives ts v) }
    {
        Iterator::collect(self, alloc)
    }
}
