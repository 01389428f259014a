//! Laws of the steps of one iterator: what the steps yield and leave, and how many asks (counted reads of a word) they
//! make.
//!
//! Unlike the other laws, these calls take the steps that they are about. They allocate nothing. How often an iterator
//! asks is known over `ArrayRepr`; a representation of your own may count no ask.
//!
//! Each call over a set has a twin over a mixed set: a change of one changes the other.

ghost use Rattle.std.specs.Prelude.{◌≡◌, ◌+◌, ◌≤◌, length, map, option_map};
ghost use Rattle.enumset_repr.specs.Asks.{BoundsAsks};
ghost use Rattle.enumset_repr.specs.BitSet.{ascending, contains};
ghost use Rattle.enumset_array.specs.Walks.{answer, without_answer, answers as answers_of, items_among, IsWalk};
ghost use Rattle.enumset_sets.specs.Elements.{valid_bits};
ghost use Rattle.enumset_mixed.specs.Mixed.{bit_with_validity};

use enumset_array::End;
use enumset_mixed::{MixedEnumSet, MixedEnumSetIter, MixedValue};
use enumset_sets::{EnumSet, EnumSetIter, EnumSetType, EnumSetTypeWithRepr};

/// Takes one step of an iterator from an end, and returns the element that the iterator yields.
fn step<T: EnumSetType>(iter: &mut EnumSetIter<T>, end: End) -> Option<T>
    ensures answer { option_map T.elements.bit result ≡ answer end iter.old.items }
    ensures items { iter.new.items ≡ without_answer end iter.old.items }
    ensures asks { BoundsAsks iter.old.asks iter.old.span (answer end iter.old.items)
        iter.new.asks iter.new.span }
{
    match end {
        End::Front => iter.next(),
        End::Back => iter.next_back(),
    }
}

/// Takes one step of an iterator over a mixed set from an end, and returns the member that the iterator yields.
fn mixed_step<T: EnumSetTypeWithRepr>(
    iter: &mut MixedEnumSetIter<T>,
    end: End,
) -> Option<MixedValue<T>>
    ensures answer { option_map (bit_with_validity T.elements.bit) result
        ≡ option_map (λ b. (b, contains (valid_bits T.elements) b)) (answer end iter.old.items) }
    ensures items { iter.new.items ≡ without_answer end iter.old.items }
    ensures asks { BoundsAsks iter.old.asks iter.old.span (answer end iter.old.items)
        iter.new.asks iter.new.span }
{
    match end {
        End::Front => iter.next(),
        End::Back => iter.next_back(),
    }
}

/// Takes a step of an iterator from each of `ends`, in that order, and writes an answer for each: the element of the
/// least or the greatest bit left, which the step takes out, or `None` if no element is left. The lists must have the
/// same length.
///
/// The sum of the asks and the span of the iterator grows by at most one for each element that the steps yield.
pub fn walk_iter<T: EnumSetType>(iter: &mut EnumSetIter<T>, ends: &[End], answers: &mut [Option<T>])
    requires { length answers.old ≡ length ends.now }
    ensures walk { IsWalk iter.old.items iter.old.asks iter.old.span ends.now
        (map (option_map T.elements.bit) answers.new) iter.new.items iter.new.asks }
    ensures span { iter.new.asks + iter.new.span
        ≤ iter.old.asks + iter.old.span + length (items_among (answers_of iter.old.items ends.now)) }
{
    for i in 0..ends.len() {
        answers[i] = step(iter, ends[i]);
    }
}

/// Takes a step of an iterator over a mixed set from each of `ends`, in that order, and writes an answer for each: the
/// member of the least or the greatest bit left, which the step takes out, or `None` if no member is left. The lists
/// must have the same length.
///
/// The sum of the asks and the span of the iterator grows by at most one for each member that the steps yield.
pub fn walk_mixed_iter<T: EnumSetTypeWithRepr>(
    iter: &mut MixedEnumSetIter<T>,
    ends: &[End],
    answers: &mut [Option<MixedValue<T>>],
)
    requires { length answers.old ≡ length ends.now }
    ensures walk { IsWalk iter.old.items iter.old.asks iter.old.span ends.now
        (map (option_map (λ v. (bit_with_validity T.elements.bit v).0)) answers.new)
        iter.new.items iter.new.asks }
    ensures validity { map (option_map (bit_with_validity T.elements.bit)) answers.new
        ≡ map (option_map (λ b. (b, contains (valid_bits T.elements) b)))
        (answers_of iter.old.items ends.now) }
    ensures span { iter.new.asks + iter.new.span
        ≤ iter.old.asks + iter.old.span + length (items_among (answers_of iter.old.items ends.now)) }
{
    for i in 0..ends.len() {
        answers[i] = mixed_step(iter, ends[i]);
    }
}

/// Takes a step of one iterator over a set from each of `ends`, in that order. It writes an answer for each, as
/// [`walk_iter`] does, and returns the iterator with how many elements are left. The lists must have the same length.
///
/// However long `ends` is, the iterator has then made at most one ask for each step and one for each word of the
/// representation. It has also made at most one for each element that the steps yielded, and one for each word. An
/// `ArrayRepr<N>` has N words, for N below 67,108,864. Counting the elements left reads words too, and is no ask.
pub fn walk_set<T: EnumSetType>(
    set: &EnumSet<T>,
    ends: &[End],
    answers: &mut [Option<T>],
) -> (EnumSetIter<T>, usize)
    requires { length answers.old ≡ length ends.now }
    ensures { IsWalk (ascending set.now) 0 T.Repr.PREFERRED_ARRAY_LEN ends.now
        (map (option_map T.elements.bit) answers.new) result.0.items result.0.asks
        × (result.1 ≡ length result.0.items) }
{
    let mut iter = set.iter();
    walk_iter(&mut iter, ends, answers);
    let left = iter.len();
    (iter, left)
}

/// Takes a step of one iterator over a mixed set from each of `ends`, in that order. It writes an answer for each, as
/// [`walk_mixed_iter`] does, and returns the iterator with how many members are left. The lists must have the same
/// length.
///
/// However long `ends` is, the iterator has then made at most one ask for each step and one for each word of the
/// representation. It has also made at most one for each member that the steps yielded, and one for each word. An
/// `ArrayRepr<N>` has N words, for N below 67,108,864. Counting the members left reads words too, and is no ask.
pub fn walk_mixed_set<T: EnumSetTypeWithRepr>(
    set: &MixedEnumSet<T>,
    ends: &[End],
    answers: &mut [Option<MixedValue<T>>],
) -> (MixedEnumSetIter<T>, usize)
    requires { length answers.old ≡ length ends.now }
    ensures { IsWalk (ascending set.now) 0 T.Repr.PREFERRED_ARRAY_LEN ends.now
        (map (option_map (λ v. (bit_with_validity T.elements.bit v).0)) answers.new)
        result.0.items result.0.asks
        × (map (option_map (bit_with_validity T.elements.bit)) answers.new
        ≡ map (option_map (λ b. (b, contains (valid_bits T.elements) b)))
        (answers_of (ascending set.now) ends.now))
        × (result.1 ≡ length result.0.items) }
{
    let mut iter = set.iter();
    walk_mixed_iter(&mut iter, ends, answers);
    let left = iter.len();
    (iter, left)
}
