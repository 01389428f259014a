//! The least and the greatest member of a set, over any representation.

ghost use Rattle.std.specs.Prelude.{◌≡◌, ◌*◌, ◌<◌, ◌^◌, IsTrue};
ghost use Rattle.enumset_repr.specs.BitSet as set;
ghost use Rattle.enumset_repr.specs.Ends.{least, greatest};

use crate::repr::{EnumSetTypeRepr, are_zero, word_or_zero};

/// Returns the least member, or `None` if the set is empty.
pub fn least_bit<R: EnumSetTypeRepr>(repr: &R) -> Option<u32>
    ensures { result ≡ least (R.members repr.now) }
{
    least_bit_from_word(repr, 0)
}

/// Returns the least member at or past `from`, or `None` if there is none.
pub fn least_bit_from<R: EnumSetTypeRepr>(repr: &R, from: u32) -> Option<u32>
    ensures { result ≡ least (set.difference (R.members repr.now) (set.below from)) }
{
    learn_members(repr);
    let place = (from / 64) as usize;
    let word = word_or_zero(repr, place) >> (from % 64);
    if word != 0 {
        return Some(from + word.trailing_zeros());
    }
    least_bit_from_word(repr, place + 1)
}

/// Returns the greatest member, or `None` if the set is empty.
pub fn greatest_bit<R: EnumSetTypeRepr>(repr: &R) -> Option<u32>
    ensures { result ≡ greatest (R.members repr.now) }
{
    learn_members(repr);
    let mut end = R::PREFERRED_ARRAY_LEN;
    // Words that are 0 are skipped sixteen at a time, here and in `least_bit_from_word`. What this saves is in
    // `docs/DECISIONS.md`.
    while end >= 16 && are_zero(repr, end - 16, end) {
        end -= 16;
    }
    for i in (0..end).rev() {
        let word = repr.word(i);
        if word != 0 {
            return Some(64 * i as u32 + (63 - word.leading_zeros()));
        }
    }
    None
}

/// Returns the least member in the words from place `from` on, or `None` if there is none.
#[inline(always)]
fn least_bit_from_word<R: EnumSetTypeRepr>(repr: &R, from: usize) -> Option<u32>
    ensures { result ≡ least (set.difference (R.members repr.now) (set.below (64 * from))) }
{
    learn_members(repr);
    let len = R::PREFERRED_ARRAY_LEN;
    let mut left = len.saturating_sub(from);
    while left >= 16 && are_zero(repr, len - left, len - left + 16) {
        left -= 16;
    }
    for i in len - left..len {
        let word = repr.word(i);
        if word != 0 {
            return Some(64 * i as u32 + word.trailing_zeros());
        }
    }
    None
}

/// Tells the proof that each member is below the width, which is a `u32`. The call does nothing at run time.
#[inline]
fn learn_members<R: EnumSetTypeRepr>(repr: &R)
    ensures within { IsTrue (set.is_subset (R.members repr.now) (set.below R.WIDTH)) }
    ensures width { R.WIDTH < 2 ^ 32 }
{
    repr.learn_is_value();
    let _width = R::WIDTH;
}
