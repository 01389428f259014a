//! Sets, their numbers, and what each element type has.

use super::{number, number_if_made};
use crate::expect::expect;
use enumset_sets::EnumSet;
use enumset_worked::{High, Letters, Masks, Single, Sparse, Wide};

#[test]
fn of_letters(rt: HostRuntime) {
    let set = EnumSet::from([Letters::A, Letters::C, Letters::G]);
    expect(&rt, "{A, C, G}, len", set.len(), 3);
    expect(&rt, "{A, C, G}, as_u8", set.as_u8(), 69);
    let others = !EnumSet::from([Letters::E, Letters::G]);
    let letters = [Letters::A, Letters::B, Letters::C, Letters::D, Letters::F];
    let wanted = number(EnumSet::from(letters));
    expect(&rt, "!{E, G}", number(others), wanted);
    expect(&rt, "!{E, G}, as_u8", others.as_u8(), 47);
    let tried = [
        number_if_made(EnumSet::<Letters>::try_from_u8(128)),
        number_if_made(EnumSet::<Letters>::try_from_u16(256)),
    ];
    expect(&rt, "try_from_u8(128), try_from_u16(256)", tried, [None; 2]);
    let cut = EnumSet::<Letters>::from_u8_truncated(255);
    let wanted = number(EnumSet::<Letters>::all());
    expect(&rt, "from_u8_truncated(255)", number(cut), wanted);
    expect(&rt, "its as_u8", cut.as_u8(), 127);
}

#[test]
fn of_sparse(rt: HostRuntime) {
    let set = EnumSet::from([Sparse::A, Sparse::D]);
    let wanted = Some(170141183460469231731687303715884106752);
    expect(&rt, "{A, D}, try_as_u64", set.try_as_u64(), None);
    let cut = set.as_u64_truncated();
    expect(&rt, "{A, D}, as_u64_truncated", cut, 1024);
    expect(&rt, "{A, D}, try_as_u128", set.try_as_u128(), wanted);
    let all = EnumSet::<Sparse>::all().as_u64_truncated();
    expect(&rt, "all, as_u64_truncated", all, 1074791424);
    let made = [
        EnumSet::<Sparse>::try_from_u64(1024),
        EnumSet::<Sparse>::try_from_u64(1025),
        Some(EnumSet::<Sparse>::from_u64_truncated(1025)),
    ];
    let only_a = Some(number(EnumSet::only(Sparse::A)));
    let made = made.map(number_if_made);
    expect(&rt, "of 1024, 1025, 1025", made, [only_a, None, only_a]);
}

#[test]
fn what_sparse_has(rt: HostRuntime) {
    expect(&rt, "bit_width", EnumSet::<Sparse>::bit_width(), 128);
    expect(&rt, "variant_count", EnumSet::<Sparse>::variant_count(), 4);
    let valid = [127, 128, 4294967295].map(EnumSet::<Sparse>::is_bit_valid);
    expect(&rt, "is_bit_valid", valid, [true, false, false]);
}

#[test]
fn of_wide(rt: HostRuntime) {
    let set = EnumSet::from([Wide::P, Wide::Q]);
    let wanted = Some(18446744073709551624);
    expect(&rt, "{P, Q}, try_as_u64", set.try_as_u64(), None);
    expect(&rt, "{P, Q}, as_u64_truncated", set.as_u64_truncated(), 8);
    expect(&rt, "{P, Q}, try_as_u128", set.try_as_u128(), wanted);
}

#[test]
fn of_high(rt: HostRuntime) {
    let set = EnumSet::from([High::A, High::C]);
    expect(&rt, "{A, C}, as_u8", set.as_u8(), 160);
    let mut iter = set.iter();
    let items = [iter.next(), iter.next(), iter.next()];
    let wanted = [Some(High::C), Some(High::A), None];
    expect(&rt, "{A, C}, items", items, wanted);
    expect(&rt, "all, as_u8", EnumSet::<High>::all().as_u8(), 224);
}

#[test]
fn of_masks_and_single(rt: HostRuntime) {
    let set = EnumSet::from([Masks::Q, Masks::R]);
    expect(&rt, "{Q, R}, as_u8", set.as_u8(), 80);
    expect(&rt, "bit_width", EnumSet::<Masks>::bit_width(), 7);
    let valid = [1, 256].map(EnumSet::<Masks>::is_bit_valid);
    expect(&rt, "is_bit_valid of 1, 256", valid, [false, false]);
    let tried = number_if_made(EnumSet::<Masks>::try_from_u8(2));
    expect(&rt, "try_from_u8(2)", tried, None);
    expect(&rt, "bit_width", EnumSet::<Single>::bit_width(), 1);
    expect(&rt, "variant_count", EnumSet::<Single>::variant_count(), 1);
    expect(&rt, "all, as_u8", EnumSet::<Single>::all().as_u8(), 1);
}
