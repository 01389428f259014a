//! Traversals: many steps of one pair of cursors, each from either end.

ghost use Rattle.std.specs.Prelude.{◌≡◌, ◌+◌, ◌≤◌, Contains, length, IfOk, IfErr, None};
ghost use Rattle.enumset_repr.specs.BitSet.{difference, from_list};
ghost use Rattle.enumset_array.specs.Cursors.{span, Covers};
ghost use Rattle.enumset_array.specs.OneStep.{TakesOut, CountsAsks};
ghost use Rattle.enumset_array.specs.Walks.{answer, without_answer, answers, without_answers, items_among, IsWalk};
ghost use Rattle.enumset_repr.specs.Words.{bits_of};
ghost use Rattle.enumset_array.specs.Items.{items_of};

use crate::cursors::{Cursors, step_back, step_front};
use crate::row::Row;
use std::alloc::{AllocError, Global};

/// An end of a list of items that ascend.
#[derive(Clone, Copy, Debug, PartialEq, Eq)]
pub enum End {
    /// The end with the least item.
    Front,
    /// The end with the greatest item.
    Back,
}

/// Takes one step from an end, and returns what [`step_front`] or [`step_back`] returns.
fn step<R: Row>(row: &mut R, cursors: &mut Cursors, end: End) -> Option<u32>
    requires { Covers (R.words row.old) cursors.old }
    ensures item { result ≡ answer end (items_of (R.words row.old)) }
    ensures rest { items_of (R.words row.new) ≡ without_answer end (items_of (R.words row.old)) }
    ensures words { TakesOut (R.words row.old) result (R.words row.new) }
    ensures asks { CountsAsks (R.asks row.old) (span cursors.old) result
        (R.asks row.new) (span cursors.new) }
    ensures covers { Covers (R.words row.new) cursors.new }
{
    match end {
        End::Front => step_front(row, cursors),
        End::Back => step_back(row, cursors),
    }
}

/// Takes one step from each of `ends`, in that order, and writes an answer for each: the least or the greatest bit of
/// the row, which the step takes out, or `None` if the row has no bit. The lists must have the same length.
///
/// All steps use one pair of cursors, which starts over the whole row. However long `ends` is, the number of asks that
/// the call makes is at most the number of bits that it found plus the number of words of the row. If an answer is
/// `None`, the number of asks is exactly that. The number of words stays the same.
pub fn walk_into<R: Row>(row: &mut R, ends: &[End], answers: &mut [Option<u32>])
    requires { length answers.old ≡ length ends.now }
    ensures walk { IsWalk (items_of (R.words row.old)) (R.asks row.old) (length (R.words row.old)) ends.now
        answers.new (items_of (R.words row.new)) (R.asks row.new) }
    ensures all_asked { Contains answers.new None
        → R.asks row.new
        ≡ R.asks row.old + length (items_among answers.new) + length (R.words row.old) }
    ensures set { bits_of (R.words row.new)
        ≡ difference (bits_of (R.words row.old)) (from_list (items_among answers.new)) }
    ensures len { length (R.words row.new) ≡ length (R.words row.old) }
{
    let mut cursors = Cursors::over(row.word_count());
    for i in 0..ends.len() {
        answers[i] = step(row, &mut cursors, ends[i]);
    }
}

/// Takes the steps of [`walk_into`], and returns a list of their answers.
///
/// Room for all answers is taken before the first step. If the call returns `AllocError`, no bit was taken out and no
/// word was asked.
pub fn walk<R: Row>(
    alloc: Global,
    row: &mut R,
    ends: &[End],
) -> Result<Vec<Option<u32>>, AllocError>
    ensures answers { IfOk result (λ v. v.items ≡ answers (items_of (R.words row.old)) ends.now) }
    ensures rest { IfOk result (λ _.
        items_of (R.words row.new) ≡ without_answers (items_of (R.words row.old)) ends.now) }
    ensures set { IfOk result (λ v.
        bits_of (R.words row.new)
        ≡ difference (bits_of (R.words row.old)) (from_list (items_among v.items))) }
    ensures asks { IfOk result (λ v.
        R.asks row.new ≤ R.asks row.old + length (items_among v.items) + length (R.words row.old)) }
    ensures all_asked { IfOk result (λ v.
        Contains v.items None
        → R.asks row.new
        ≡ R.asks row.old + length (items_among v.items) + length (R.words row.old)) }
    ensures bound { IfOk result (λ _.
        R.asks row.new ≤ R.asks row.old + length ends.now + length (R.words row.old)) }
    ensures len { length (R.words row.new) ≡ length (R.words row.old) }
    ensures unchanged { IfErr result (λ _. row.new ≡ row.old) }
{
    let mut answers = vec![in alloc; None; ends.len()]?;
    walk_into(row, ends, &mut answers);
    Ok(answers)
}
