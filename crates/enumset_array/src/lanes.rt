//! Operations on lists of words, in groups of four words; the words left over follow one by one. What the paths from
//! sixteen words on save is in `docs/DECISIONS.md`.

ghost use Rattle.std.specs.Prelude.{◌≡◌, ◌<◌, ◌≤◌, ◌==◌, IfSome, drop, is_none, length, map, nat_eq, not, sum_by, take, true};
ghost use Rattle.std.specs.Cmp.Lexicographic.{pointwise};
ghost use Rattle.std.specs.Int.{w64, bit_not};
ghost use Rattle.std.specs.List.{list_all};
ghost use Rattle.std.specs.Simd.Lanes.{zip2};
ghost use Rattle.enumset_repr.specs.BitSet.{len};
ghost use Rattle.enumset_repr.specs.Number.{bits};

use crate::array_repr::WORD_LIMIT;
use crate::set_operation::{Change, SetOperation, Xor};
use std::simd::prelude::*;

/// Replaces each word by the result of the operation for this word and the one of `others` in the same place. The lists
/// must have the same length.
pub(crate) fn apply_to_words<O: SetOperation>(words: &mut [u64], others: &[u64])
    requires { length words.old ≡ length others.now }
    ensures { words.new ≡ zip2 O.of_words words.old others.now }
{
    apply_from::<O>(words, others, 0);
}

/// Does what [`apply_to_words`] does, if the operation leaves each word before `place` as it is. The lists must have the
/// same length.
///
/// An iteration of the loop goes over sixteen words. Over 1024 words this takes 8% fewer instructions than four words
/// in an iteration.
#[inline]
fn apply_from<O: SetOperation>(words: &mut [u64], others: &[u64], place: usize)
    requires length { length words.old ≡ length others.now }
    requires within { place ≤ length words.old }
    requires same { take place words.old ≡ take place (zip2 O.of_words words.old others.now) }
    ensures { words.new ≡ zip2 O.of_words words.old others.now }
{
    for k in place / 16..words.len() / 16 {
        let i = 16 * k;
        apply_by_four::<O>(&mut words[i..i + 16], &others[i..i + 16]);
    }
    let i = words.len() / 16 * 16;
    apply_by_four::<O>(&mut words[i..], &others[i..]);
}

/// Does what [`apply_to_words`] does, with four words in an iteration. The lists must have the same length.
#[inline]
fn apply_by_four<O: SetOperation>(words: &mut [u64], others: &[u64])
    requires { length words.old ≡ length others.now }
    ensures { words.new ≡ zip2 O.of_words words.old others.now }
{
    for k in 0..words.len() / 4 {
        let i = 4 * k;
        let lanes = O::on_lanes(
            u64x4::from_slice(&words[i..]),
            u64x4::from_slice(&others[i..]),
        );
        lanes.copy_to_slice(&mut words[i..]);
    }
    for i in words.len() / 4 * 4..words.len() {
        words[i] = O::on_words(words[i], others[i]);
    }
}

/// Does what [`apply_to_words`] does, and returns whether a word changed. The lists must have the same length.
///
/// From sixteen words on, the words are read in blocks of sixteen, and those left over as one more block, up to the
/// first block in which a word changes. From this block on they are written. So nothing is written if no word changes,
/// and only the first word and this block are read twice. Below sixteen words, one loop that writes and compares is
/// faster. Inlined, the loops are compiled for N words: over 24 words this takes a third fewer instructions.
#[inline(always)]
pub(crate) fn change_words<O: SetOperation>(words: &mut [u64], others: &[u64]) -> bool
    requires { length words.old ≡ length others.now }
    ensures words { words.new ≡ zip2 O.of_words words.old others.now }
    ensures changed { result ≡ not (pointwise nat_eq words.old words.new) }
{
    if words.len() < 16 {
        return apply_and_compare::<O>(words, others);
    }
    match first_result::<Change<O>>(words, others) {
        None => return false,
        // The loop of `apply_to_words` begins at place 0, so it is compiled for N words, too.
        Some(0) => apply_to_words::<O>(words, others),
        Some(place) => apply_from::<O>(words, others, place),
    }
    true
}

/// Does what [`apply_to_words`] does, and returns whether a word changed. The lists must have the same length. Each word
/// is read once.
fn apply_and_compare<O: SetOperation>(words: &mut [u64], others: &[u64]) -> bool
    requires { length words.old ≡ length others.now }
    ensures words { words.new ≡ zip2 O.of_words words.old others.now }
    ensures changed { result ≡ not (pointwise nat_eq words.old words.new) }
{
    let mut changed = u64x4::splat(0);
    for k in 0..words.len() / 4 {
        let i = 4 * k;
        let old = u64x4::from_slice(&words[i..]);
        let lanes = O::on_lanes(old, u64x4::from_slice(&others[i..]));
        lanes.copy_to_slice(&mut words[i..]);
        changed |= old ^ lanes;
    }
    let mut any = changed.reduce_or();
    for i in words.len() / 4 * 4..words.len() {
        let old = words[i];
        let word = O::on_words(old, others[i]);
        words[i] = word;
        any |= old ^ word;
    }
    any != 0
}

/// Inverts each bit of the words, four words at a time.
pub(crate) fn invert(words: &mut [u64])
    ensures { words.new ≡ map (bit_not w64) words.old }
{
    for k in 0..words.len() / 4 {
        let i = 4 * k;
        let lanes = !u64x4::from_slice(&words[i..]);
        lanes.copy_to_slice(&mut words[i..]);
    }
    for i in words.len() / 4 * 4..words.len() {
        words[i] = !words[i];
    }
}

/// Returns whether the operation yields 0 for every pair of words in the same place. The lists must have the same
/// length.
pub(crate) fn words_yield_none<O: SetOperation>(words: &[u64], others: &[u64]) -> bool
    requires { length words.now ≡ length others.now }
    ensures { result ≡ list_all (λ w. w == 0) (zip2 O.of_words words.now others.now) }
{
    first_result::<O>(words, others).is_none()
}

/// Returns a place below which the operation yields 0 for every pair of words, or `None` if it yields 0 for all pairs.
/// The lists must have the same length.
///
/// From sixteen words on, the search stops early: at the first pair if its result is not 0, else at the first block of
/// sixteen pairs with such a result, whose first place is returned. Below sixteen words there is one test, of all
/// pairs.
#[inline(always)]
fn first_result<O: SetOperation>(words: &[u64], others: &[u64]) -> Option<usize>
    requires { length words.now ≡ length others.now }
    ensures none { is_none result ≡ list_all (λ w. w == 0) (zip2 O.of_words words.now others.now) }
    ensures place { IfSome result (λ i. (i ≤ length words.now)
        × (list_all (λ w. w == 0) (take i (zip2 O.of_words words.now others.now)) ≡ true)) }
{
    if words.len() >= 16 && O::on_words(words[0], others[0]) != 0 {
        return Some(0);
    }
    for k in 0..words.len() / 16 {
        let i = 16 * k;
        if any_of::<O>(&words[i..i + 16], &others[i..i + 16]) != 0 {
            return Some(i);
        }
    }
    let i = words.len() / 16 * 16;
    if any_of::<O>(&words[i..], &others[i..]) == 0 {
        return None;
    }
    Some(i)
}

/// Returns a place such that the lists are equal from there to their ends. The lists must have the same length.
///
/// The words are compared from the top, in blocks of sixteen, until a block differs: the place is the end of this
/// block. If no block differs, the place is the number of words left below the blocks. If there are at least sixteen
/// words, the last one is compared first, by itself: if it differs, the place is the end of the lists.
pub(crate) fn equal_from(words: &[u64], others: &[u64]) -> usize
    requires { length words.now ≡ length others.now }
    ensures within { result ≤ length words.now }
    ensures equal { drop result words.now ≡ drop result others.now }
{
    let len = words.len();
    if len >= 16 && words[len - 1] != others[len - 1] {
        return len;
    }
    for k in 0..len / 16 {
        let i = len - 16 * (k + 1);
        if any_of::<Xor>(&words[i..i + 16], &others[i..i + 16]) != 0 {
            return i + 16;
        }
    }
    len % 16
}

/// Returns the results for all pairs of words, combined by `|`: a number that is 0 exactly if each result is 0. The
/// lists must have the same length.
fn any_of<O: SetOperation>(words: &[u64], others: &[u64]) -> u64
    requires { length words.now ≡ length others.now }
    ensures { (result == 0) ≡ list_all (λ w. w == 0) (zip2 O.of_words words.now others.now) }
{
    let (chunks, rest) = words.as_chunks::<4>();
    let (other_chunks, other_rest) = others.as_chunks::<4>();
    let mut lanes = u64x4::splat(0);
    for (chunk, other) in chunks.iter().zip(other_chunks) {
        lanes |= O::on_lanes(u64x4::from_array(*chunk), u64x4::from_array(*other));
    }
    let mut any = lanes.reduce_or();
    for (word, other_word) in rest.iter().zip(other_rest) {
        any |= O::on_words(*word, *other_word);
    }
    any
}

/// Returns the number of bits set in the words. There must be fewer than [`WORD_LIMIT`] words.
pub(crate) fn ones_of(words: &[u64]) -> u32
    requires { length words.now < WORD_LIMIT }
    ensures { result ≡ sum_by (λ w. len (bits w)) words.now }
{
    let (chunks, rest) = words.as_chunks::<4>();
    let mut ones = 0;
    for [a, b, c, d] in chunks {
        ones += a.count_ones() + b.count_ones() + c.count_ones() + d.count_ones();
    }
    for word in rest {
        ones += word.count_ones();
    }
    ones
}
