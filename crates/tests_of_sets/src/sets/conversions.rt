//! Sets to and from numbers and words, by the calls that no command makes.

use crate::expect::expect;
use crate::sets::{expect_letters, two_of};
use enumset_sets::{EnumSet, EnumSetType};
use enumset_worked::{Letters, Sparse, Wide};
use std::process::Abort;

// Commands make the `try_` and `_truncated` calls for each type except `usize`.
#[test]
fn numbers_of_letters(rt: HostRuntime) {
    let set = two_of(Letters::A, Letters::G);
    let numbers = [
        set.as_u8() as u128,
        set.as_u16() as u128,
        set.as_u32() as u128,
        set.as_u64() as u128,
        set.as_u128(),
        set.as_usize() as u128,
        set.as_usize_truncated() as u128,
    ];
    expect(&rt, "as_u8 and its like", numbers, [65; 7]);
    expect(&rt, "try_as_usize", set.try_as_usize(), Some(65));
    let tried = EnumSet::<Letters>::try_from_usize(usize::MAX);
    expect(&rt, "try_from_usize", tried.is_none(), true);
    let cut = EnumSet::from_usize_truncated(193);
    expect_letters(&rt, "from_usize_truncated", &[cut], &[65]);
    expect_made(&rt, 65, &set);
}

/// Makes a set from its number, by each call with a requirement.
fn expect_made<T: EnumSetType>(rt: &impl Abort, number: u8, set: &EnumSet<T>) {
    assert!(rt; EnumSet::<T>::try_from_u8(number).is_some());
    let same = [
        EnumSet::from_u8(number).eq(set),
        EnumSet::from_u16(number as u16).eq(set),
        EnumSet::from_u32(number as u32).eq(set),
        EnumSet::from_u64(number as u64).eq(set),
        EnumSet::from_u128(number as u128).eq(set),
        EnumSet::from_usize(number as usize).eq(set),
        EnumSet::from_u8_unchecked(number).eq(set),
        EnumSet::from_u16_unchecked(number as u16).eq(set),
        EnumSet::from_u32_unchecked(number as u32).eq(set),
        EnumSet::from_u64_unchecked(number as u64).eq(set),
        EnumSet::from_u128_unchecked(number as u128).eq(set),
        EnumSet::from_usize_unchecked(number as usize).eq(set),
    ];
    expect(rt, "from_u8 and its like", same, [true; 12]);
}

#[test]
fn words_of_sparse(rt: HostRuntime) {
    let both = two_of(Sparse::A, Sparse::D);
    let words = [1024, 9223372036854775808];
    let arrays = [both.as_array(), both.as_array_truncated()];
    expect(&rt, "as_array and as_array_truncated", arrays, [words; 2]);
    expect(&rt, "try_as_array", both.try_as_array(), Some(words));
    let mut copied = [7; 2];
    both.copy_into_slice(&mut copied);
    expect(&rt, "copy_into_slice", copied, words);
}

/// Makes the set of all from its words, by each call for arrays, and by the calls for slices that have a requirement.
fn expect_made_of_words<T: EnumSetType>(rt: &impl Abort, words: [u64; 4]) {
    let all = EnumSet::<T>::all();
    assert!(rt; EnumSet::<T>::try_from_array(words).is_some());
    assert!(rt; EnumSet::<T>::try_from_slice(&words).is_some());
    let same = [
        EnumSet::from_array_truncated(words).eq(&all),
        EnumSet::from_array(words).eq(&all),
        EnumSet::from_array_unchecked(words).eq(&all),
        EnumSet::from_slice(&words).eq(&all),
        EnumSet::from_slice_unchecked(&words).eq(&all),
    ];
    expect(rt, "from_array and its like", same, [true; 5]);
    let tried = EnumSet::<T>::try_from_array([u64::MAX; 3]).is_none();
    expect(rt, "try_from_array", tried, true);
}

#[test]
fn sets_of_words(rt: HostRuntime) {
    expect_made_of_words::<Wide>(&rt, [8, 1, 4, 0]);
}
