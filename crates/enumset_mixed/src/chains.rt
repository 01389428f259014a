//! The calls with which chains over the members of a mixed set begin.
//!
//! The module `chains` of `enumset_sets` is its twin: a change here is mostly due there, too.

ghost use Rattle.std.specs.Prelude.{◌≡◌, ◌<◌, ℕ, true, false, List, map, MatchOption, IfOk};
ghost use Rattle.std.specs.Bool.{MatchBool};
ghost use Rattle.std.specs.Option.{option_map};
ghost use Rattle.std.specs.Fn.{Called, CalledAt};
ghost use Rattle.std.specs.Iterator.Adapters.{filter_source, filter_callee};
ghost use Rattle.std.specs.Iterator.{HoldsAlong, DrainsIf, CallableWhile, CallableWhileAt};
ghost use Rattle.std.specs.Iterator.Runs.{CallKeepsClosure};
ghost use Rattle.enumset_repr.specs.BitSet as set;
ghost use Rattle.enumset_repr.specs.Ends.{greatest};
ghost use Rattle.enumset_sets.specs.Calls.{AllCalls, AnyCalls, EachGivesAt, FilterRuns, FindCalls, GivesAt, left, OneGivesAt, PositionCalls};
ghost use Rattle.enumset_sets.specs.Elements.{valid_bits};
ghost use Rattle.enumset_mixed.specs.Calls.{HasBit, item_steps, item_steps_back};
ghost use Rattle.enumset_mixed.specs.Mixed.{bit_with_validity, with_validity};

use crate::mixed_enum_set_filter::MixedEnumSetFilter;
use crate::mixed_enum_set_iter::MixedEnumSetIter;
use crate::mixed_value::MixedValue;
use enumset_sets::EnumSetTypeWithRepr;
use std::alloc::AllocError;

/// The calls of `Iterator` with which chains over a mixed set begin. They do what those of std do, and take the place
/// of those: their contracts are about the set of the bits left, valid and unknown, so that what a chain returns can be
/// stated by sets. What the contracts say of members holds where no call changes what the closure captured; the clause
/// `calls` says in any case which calls are made.
impl<T: EnumSetTypeWithRepr> MixedEnumSetIter<T> {
    /// Returns whether `f` returns true for each member left. It calls `f` from the front, up to the first member for
    /// which it returns false.
    pub fn all<F: FnMut(MixedValue<T>) -> bool>(&mut self, f: F) -> bool
        requires { CallableWhile ⟦<MixedEnumSetIter<T> as Iterator>⟧.next_gives F.FnMut true self.old f }
        ensures calls { AllCalls (item_steps T.elements) F.FnMut self.old f result self.new }
        ensures members { CallKeepsClosure F.FnMut f → MatchBool result
            (EachGivesAt (HasBit T.elements) (λ m b. Called F.FnMut f (m, tt) b f) (left self.old) true)
            (OneGivesAt (HasBit T.elements) (λ m b. Called F.FnMut f (m, tt) b f) (left self.old) false) }
    {
        Iterator::all(self, f)
    }

    /// Returns whether `f` returns true for a member left. It calls `f` from the front, up to the first member for
    /// which it returns true.
    pub fn any<F: FnMut(MixedValue<T>) -> bool>(&mut self, f: F) -> bool
        requires { CallableWhile ⟦<MixedEnumSetIter<T> as Iterator>⟧.next_gives F.FnMut false self.old f }
        ensures calls { AnyCalls (item_steps T.elements) F.FnMut self.old f result self.new }
        ensures members { CallKeepsClosure F.FnMut f → MatchBool result
            (OneGivesAt (HasBit T.elements) (λ m b. Called F.FnMut f (m, tt) b f) (left self.old) true)
            (EachGivesAt (HasBit T.elements) (λ m b. Called F.FnMut f (m, tt) b f) (left self.old) false) }
    {
        Iterator::any(self, f)
    }

    /// Returns the first member left for which `predicate` returns true, or `None` if there is none. It calls
    /// `predicate` from the front, up to this member, which has the least bit of those that pass.
    pub fn find<P: FnMut(&MixedValue<T>) -> bool>(&mut self, predicate: P) -> Option<MixedValue<T>>
        requires { CallableWhileAt ⟦<MixedEnumSetIter<T> as Iterator>⟧.next_gives P.FnMut false self.old predicate }
        ensures calls { FindCalls (item_steps T.elements) P.FnMut self.old predicate result self.new }
        ensures member { CallKeepsClosure P.FnMut predicate → MatchOption result
            (EachGivesAt (HasBit T.elements) (λ m b. CalledAt P.FnMut predicate m b predicate) (left self.old) false)
            (λ m. (p : ℕ) × HasBit T.elements m p × (set.contains (left self.old) p ≡ true)
            × CalledAt P.FnMut predicate m true predicate
            × ((q : ℕ) → set.contains (left self.old) q ≡ true → q < p
            → GivesAt (HasBit T.elements) (λ m b. CalledAt P.FnMut predicate m b predicate) q false)) }
    {
        self.learn_left();
        Iterator::find(self, predicate)
    }

    /// Returns the last member left for which `predicate` returns true, or `None` if there is none. It calls
    /// `predicate` from the back, down to this member, which has the greatest bit of those that pass.
    pub fn rfind<P: FnMut(&MixedValue<T>) -> bool>(&mut self, predicate: P) -> Option<MixedValue<T>>
        requires { CallableWhileAt ⟦<MixedEnumSetIter<T> as DoubleEndedIterator>⟧.next_back_gives P.FnMut false self.old predicate }
        ensures calls { FindCalls (item_steps_back T.elements) P.FnMut self.old predicate result self.new }
        ensures member { CallKeepsClosure P.FnMut predicate → MatchOption result
            (EachGivesAt (HasBit T.elements) (λ m b. CalledAt P.FnMut predicate m b predicate) (left self.old) false)
            (λ m. (p : ℕ) × HasBit T.elements m p × (set.contains (left self.old) p ≡ true)
            × CalledAt P.FnMut predicate m true predicate
            × ((q : ℕ) → set.contains (left self.old) q ≡ true → p < q
            → GivesAt (HasBit T.elements) (λ m b. CalledAt P.FnMut predicate m b predicate) q false)) }
    {
        self.learn_left();
        DoubleEndedIterator::rfind(self, predicate)
    }

    /// Returns the number of members left before the first one for which `predicate` returns true, or `None` if there
    /// is none. It calls `predicate` from the front, up to this member.
    pub fn position<P: FnMut(MixedValue<T>) -> bool>(&mut self, predicate: P) -> Option<usize>
        requires { CallableWhile ⟦<MixedEnumSetIter<T> as Iterator>⟧.next_gives P.FnMut false self.old predicate }
        ensures calls { PositionCalls (item_steps T.elements) P.FnMut self.old predicate result self.new }
        ensures member { CallKeepsClosure P.FnMut predicate → MatchOption result
            (EachGivesAt (HasBit T.elements) (λ m b. Called P.FnMut predicate (m, tt) b predicate) (left self.old) false)
            (λ i. (m : _) × (p : ℕ) × HasBit T.elements m p × (set.contains (left self.old) p ≡ true)
            × Called P.FnMut predicate (m, tt) true predicate
            × (i ≡ set.len (set.low (left self.old) p))
            × ((q : ℕ) → set.contains (left self.old) q ≡ true → q < p
            → GivesAt (HasBit T.elements) (λ m b. Called P.FnMut predicate (m, tt) b predicate) q false)) }
    {
        self.learn_left();
        Iterator::position(self, predicate)
    }

    /// Returns the number of members left, unknown bits included.
    pub fn count(self) -> usize
        ensures { result ≡ set.len (left self) }
    {
        self.learn_left();
        self.len()
    }

    /// Returns the last member left, which has the greatest bit, or `None` if no member is left.
    pub fn last(self) -> Option<MixedValue<T>>
        ensures { option_map (bit_with_validity T.elements.bit) result
            ≡ option_map (λ b. (b, set.contains (valid_bits T.elements) b)) (greatest (left self)) }
    {
        let mut iter = self;
        iter.learn_left();
        iter.next_back()
    }

    /// Returns an iterator over the members left for which `predicate` returns true. That iterator calls `predicate`
    /// when a member is taken from it, and not before.
    pub fn filter<P: FnMut(&MixedValue<T>) -> bool>(self, predicate: P) -> MixedEnumSetFilter<T, P>
        ensures source { filter_source result ≡ self }
        ensures closure { filter_callee result ≡ predicate }
        ensures runs { FilterRuns (item_steps T.elements) P.FnMut self predicate result }
    {
        MixedEnumSetFilter::of(self, predicate)
    }

    /// Returns a collection of the members left, ascending by bit, or `AllocError` if there is no memory for them.
    pub fn collect<B: FromIterator<MixedValue<T>>>(self, alloc: B::Alloc) -> Result<B, AllocError>
        requires { HoldsAlong ⟦<MixedEnumSetIter<T> as Iterator>⟧.next_gives self B.can_from_iter }
        ensures ran { IfOk result (λ v. (ms : List _)
            × DrainsIf ⟦<MixedEnumSetIter<T> as Iterator>⟧.next_gives (B.is_complete v) self ms × B.from_iter_gives ms v) }
        ensures members { IfOk result (λ v. B.is_complete v → (ms : List _)
            × (map (bit_with_validity T.elements.bit) ms ≡ with_validity (valid_bits T.elements) self.items)
            × (set.from_list (map (λ m. (bit_with_validity T.elements.bit m).0) ms) ≡ left self)
            × B.from_iter_gives ms v) }
    {
        Iterator::collect(self, alloc)
    }
}
