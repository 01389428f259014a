//! The sets of a run.

mod enum_set;
mod mixed_enum_set;

ghost use Rattle.std.specs.Prelude.{◌≡◌, ◌↔◌, ◌<◌, ◌*◌, ◌^◌, ℕ, List, not, length, true, IsTrue, IsSome, IfSome};
ghost use Rattle.enumset_repr.specs.BitSet as set;
ghost use Rattle.enumset_repr.specs.BitSet.{BitSet};
ghost use Rattle.enumset_repr.specs.Number.{number as number_of, bits};
ghost use Rattle.enumset_repr.specs.Words.{words, bits_of};
ghost use Rattle.enumset_repr.specs.Ends.{first, last, without_first, without_last};
ghost use Rattle.enumset_repr.specs.Order.{compare};
ghost use Rattle.enumset_machine.specs.Plans.{Rules, is_width};
ghost use Rattle.enumset_machine.specs.Replies.{reply_by};

use crate::answer::Answer;
use std::cmp::Ordering;

/// A set of a run, with the calls that commands need. They take the bit of an element instead of the element, so a run
/// does not depend on an element type.
pub trait RunSet: Copy {
    // The members' bits.
    ghost members: { Self → BitSet };

    // Which bits such a set may have, and how a step replies.
    ghost rules: { Rules };

    /// The iterator over a set's members.
    type Items: Drop;

    // What is left in an iterator.
    ghost rest: { Self.Items → List ℕ };

    /// Returns whether a bit is valid.
    fn is_bit_valid(bit: u32) -> bool
        ensures { result ≡ set.contains rules.valid bit };

    /// Returns the answer to a step that yields a bit.
    fn bit_answer(bit: u32) -> Answer<Self>
        ensures { reply_by members result ≡ rules.bit_reply bit };

    /// Returns the empty set.
    fn new() -> Self
        ensures { members result ≡ set.empty };

    /// Returns the set of all valid bits.
    fn all() -> Self
        ensures { members result ≡ rules.valid };

    /// Returns the set of one valid bit.
    fn only(bit: u32) -> Self
        requires { set.contains rules.valid bit ≡ true }
        ensures { members result ≡ set.only bit };

    /// Makes a valid bit a member, and returns whether it was absent.
    fn insert(&mut self, bit: u32) -> bool
        requires { set.contains rules.valid bit ≡ true }
        ensures inserted { members self.new ≡ set.insert (members self.old) bit }
        ensures was_absent { result ≡ not (set.contains (members self.old) bit) };

    /// Removes a valid bit, and returns whether it was a member.
    fn remove(&mut self, bit: u32) -> bool
        requires { set.contains rules.valid bit ≡ true }
        ensures removed { members self.new ≡ set.remove (members self.old) bit }
        ensures was_present { result ≡ set.contains (members self.old) bit };

    /// Returns whether a valid bit is a member.
    fn contains(&self, bit: u32) -> bool
        requires { set.contains rules.valid bit ≡ true }
        ensures { result ≡ set.contains (members self.now) bit };

    /// Removes all members.
    fn clear(&mut self)
        ensures { members self.new ≡ set.empty };

    /// Returns how many members there are.
    fn len(&self) -> usize
        ensures { result ≡ set.len (members self.now) };

    /// Returns whether there is no member.
    fn is_empty(&self) -> bool
        ensures { result ≡ set.is_empty (members self.now) };

    /// Returns the members of either.
    fn union(&self, other: Self) -> Self
        ensures { members result ≡ set.union (members self.now) (members other) };

    /// Returns the common members.
    fn intersection(&self, other: Self) -> Self
        ensures { members result ≡ set.intersection (members self.now) (members other) };

    /// Returns the members that the other set does not have.
    fn difference(&self, other: Self) -> Self
        ensures { members result ≡ set.difference (members self.now) (members other) };

    /// Returns the members of exactly one of the two.
    fn symmetric_difference(&self, other: Self) -> Self
        ensures { members result ≡ set.symmetric_difference (members self.now) (members other) };

    /// Returns the valid bits that are not members.
    fn complement(&self) -> Self
        ensures { members result ≡ set.difference rules.valid (members self.now) };

    /// Makes each member of the other set a member.
    fn insert_all(&mut self, other: Self)
        ensures { members self.new ≡ set.union (members self.old) (members other) };

    /// Removes each member of the other set.
    fn remove_all(&mut self, other: Self)
        ensures { members self.new ≡ set.difference (members self.old) (members other) };

    /// Returns whether the two share no member.
    fn is_disjoint(&self, other: Self) -> bool
        ensures { result ≡ set.is_disjoint (members self.now) (members other) };

    /// Returns whether each member of the other set is a member.
    fn is_superset(&self, other: Self) -> bool
        ensures { result ≡ set.is_subset (members other) (members self.now) };

    /// Returns whether each member is a member of the other set.
    fn is_subset(&self, other: Self) -> bool
        ensures { result ≡ set.is_subset (members self.now) (members other) };

    /// Returns whether the two have the same members.
    fn is_same(&self, other: Self) -> bool
        ensures { result ≡ set.is_same (members self.now) (members other) };

    /// Returns how the set compares with the other: the greatest bit that exactly one of them has decides.
    fn compare(&self, other: Self) -> Ordering
        ensures { result ≡ compare (members self.now) (members other) };

    /// Returns the number of the set, if each member is below a width.
    fn number(&self, width: u32) -> Option<u128>
        requires { is_width width ≡ true }
        ensures fits { IsSome result ↔ IsTrue (set.is_subset (members self.now) (set.below width)) }
        ensures value { IfSome result (λ n. n ≡ number_of (members self.now)) };

    /// Returns the number of the members below a width.
    fn number_cut(&self, width: u32) -> u128
        requires { is_width width ≡ true }
        ensures { result ≡ number_of (set.low (members self.now) width) };

    /// Returns the set of a number of a width, if a set may have each of its bits.
    fn from_number(width: u32, value: u128) -> Option<Self>
        requires width { is_width width ≡ true }
        requires fits { value < 2 ^ width }
        ensures allowed { IsSome result ↔ IsTrue (set.is_subset (bits value) rules.allowed) }
        ensures value { IfSome result (λ s. members s ≡ bits value) };

    /// Returns the set of those bits of a number of a width that a set may have.
    fn from_number_cut(width: u32, value: u128) -> Self
        requires width { is_width width ≡ true }
        requires fits { value < 2 ^ width }
        ensures { members result ≡ set.intersection (bits value) rules.allowed };

    /// Writes a word of the set to each place of a slice, the lowest first, if each member is in one of these words.
    fn words(&self, slice: &mut [u64]) -> Option<()>
        ensures fits { IsSome result
            ↔ IsTrue (set.is_subset (members self.now) (set.below (64 * length slice.old))) }
        ensures words { IsSome result
            → slice.new ≡ words (members self.now) (length slice.old) };

    /// Writes a word of the set to each place of a slice, the lowest first.
    fn words_cut(&self, slice: &mut [u64])
        ensures { slice.new ≡ words (members self.now) (length slice.old) };

    /// Returns the set of words, if a set may have each of their bits.
    fn from_words(words: &[u64]) -> Option<Self>
        ensures allowed { IsSome result ↔ IsTrue (set.is_subset (bits_of words.now) rules.allowed) }
        ensures value { IfSome result (λ s. members s ≡ bits_of words.now) };

    /// Returns the set of those bits of words that a set may have.
    fn from_words_cut(words: &[u64]) -> Self
        ensures { members result ≡ set.intersection (bits_of words.now) rules.allowed };

    /// Returns an iterator over the members as they are now, ascending, from both ends.
    fn items(&self) -> Self::Items
        ensures { rest result ≡ set.ascending (members self.now) };

    /// Takes one step of an iterator from the front, and returns the bit of its item.
    fn next(items: &mut Self::Items) -> Option<u32>
        ensures given { result ≡ first (rest items.old) }
        ensures rest { rest items.new ≡ without_first (rest items.old) };

    /// Takes one step of an iterator from the back, and returns the bit of its item.
    fn next_back(items: &mut Self::Items) -> Option<u32>
        ensures given { result ≡ last (rest items.old) }
        ensures rest { rest items.new ≡ without_last (rest items.old) };

    /// Returns how many members are left in an iterator.
    fn items_left(items: &Self::Items) -> usize
        ensures { result ≡ length (rest items.now) };
}
