//! Sets, and arrays and slices of words.

use super::number_if_made;
use crate::expect::expect;
use enumset_sets::EnumSet;
use enumset_worked::{Letters, Sparse, Wide};
use std::test::Fail;

#[test]
fn of_sparse(rt: HostRuntime) -> Result<(), Fail> {
    let set = EnumSet::from([Sparse::A, Sparse::D]);
    let words = [1024, 9223372036854775808];
    expect(&rt, "{A, D}, as_array", set.as_array::<2>(), words);
    let list = set.to_vec(rt.alloc())?;
    expect(&rt, "{A, D}, to_vec", list.as_slice(), &words);
    let mut one = [7];
    expect(&rt, "into [7]", set.try_copy_into_slice(&mut one), None);
    expect(&rt, "the slice", one, [7]);
    let mut three = [7, 7, 7];
    set.copy_into_slice_truncated(&mut three);
    let wanted = [1024, 9223372036854775808, 0];
    expect(&rt, "into [7, 7, 7]", three, wanted);
    let tried = [
        EnumSet::<Sparse>::empty().try_as_array::<0>(),
        EnumSet::only(Sparse::A).try_as_array::<0>(),
    ];
    expect(&rt, "try_as_array of {}, {A}", tried, [Some([]), None]);
    Ok(())
}

#[test]
fn of_wide(rt: HostRuntime) {
    let all = EnumSet::<Wide>::all();
    expect(&rt, "all, two words", all.try_as_array::<2>(), None);
    let cut = all.as_array_truncated::<2>();
    expect(&rt, "all, two words, cut", cut, [8, 1]);
    expect(&rt, "all, four words", all.as_array::<4>(), [8, 1, 4, 0]);
    let made = [
        EnumSet::<Wide>::try_from_array([8, 1, 4, 0]),
        EnumSet::<Wide>::try_from_array([8, 1, 4, 1]),
        EnumSet::<Wide>::try_from_array([9, 1, 4]),
        Some(EnumSet::<Wide>::from_array_truncated([9, 1, 4, 1])),
    ];
    let words = made.map(|it| it.map(|set| set.as_array_truncated::<3>()));
    let wanted = Some(all.as_array_truncated::<3>());
    expect(&rt, "sets", words, [wanted, None, None, wanted]);
}

#[test]
fn of_letters(rt: HostRuntime) {
    let made = [
        EnumSet::<Letters>::try_from_slice(&[5, 0, 0]),
        EnumSet::<Letters>::try_from_slice(&[5, 1]),
        Some(EnumSet::<Letters>::from_slice_truncated(&[133, 1])),
        EnumSet::<Letters>::try_from_slice(&[]),
    ];
    let a_and_c = number_if_made(Some(EnumSet::from([Letters::A, Letters::C])));
    let wanted = [a_and_c, None, a_and_c, Some(0)];
    expect(&rt, "sets", made.map(number_if_made), wanted);
    let set = EnumSet::only(Letters::A);
    expect(&rt, "{A} into []", set.try_copy_into_slice(&mut []), None);
    let mut two = [7, 7];
    set.copy_into_slice_truncated(&mut two);
    expect(&rt, "{A} into [7, 7]", two, [1, 0]);
}
