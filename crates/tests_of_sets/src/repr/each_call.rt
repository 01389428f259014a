//! Each call of `EnumSetTypeRepr` through the trait, at each type that implements it, on sets of bits below 7. Over
//! zero words these sets are empty.

use crate::expect::expect_at;
use crate::hash_of::hash_of;
use enumset_array::ArrayRepr;
use enumset_repr::{
    EnumSetTypeRepr, from_u64_array, greatest_bit, least_bit, least_bit_from, to_u64_array,
    try_from_u64_array, try_to_u64_array,
};
use std::process::Abort;

/// The number of a set whose bits are below 7, as a representation keeps it: 0 over zero words.
fn kept<R: EnumSetTypeRepr>(number: u8) -> u8 {
    if R::WIDTH == 0 { 0 } else { number }
}

/// A bit below 7 as the bit of a member, or `None` over zero words, where no set has members.
fn kept_bit<R: EnumSetTypeRepr>(bit: u32) -> Option<u32> {
    (R::WIDTH != 0).then_some(bit)
}

/// The operators in place, on {0, 3, 6} and {3, 4}.
fn operators_in_place<R: EnumSetTypeRepr>(rt: &impl Abort, repr: &str) {
    let (a, b) = (R::from_u8(73), R::from_u8(24));
    let (mut or, mut and, mut xor, mut and_not) = (a, a, a, a);
    or.or_with(&b);
    and.and_with(&b);
    xor.xor_with(&b);
    and_not.and_not_with(&b);
    let changed = [or.to_u8(), and.to_u8(), xor.to_u8(), and_not.to_u8()];
    let wanted = [89, 8, 81, 65].map(|number| kept::<R>(number));
    expect_at(rt, repr, "or_with and its like", changed, wanted);
}

/// The other operators, on the same sets.
fn operators<R: EnumSetTypeRepr>(rt: &impl Abort, repr: &str) {
    let (a, b, or) = (R::from_u8(73), R::from_u8(24), R::from_u8(89));
    let made = [(a | b).to_u8(), (a & b).to_u8(), (a ^ b).to_u8()];
    let wanted = [89, 8, 81].map(|number| kept::<R>(number));
    expect_at(rt, repr, "|, & and ^", made, wanted);
    let made = [a.and_not(b).to_u8(), (!a & b).to_u8(), R::EMPTY.to_u8()];
    let wanted = [65, 16, 0].map(|number| kept::<R>(number));
    expect_at(rt, repr, "and_not, ! and EMPTY", made, wanted);
    let are_empty = R::WIDTH == 0;
    let answers = [a.is_empty(), a.is_subset_of(&or), a.is_disjoint_from(&b)];
    let wanted = [are_empty, true, are_empty];
    expect_at(rt, repr, "is_empty and its like", answers, wanted);
    let answers = [a == or, a < or];
    expect_at(rt, repr, "== and <", answers, [are_empty, !are_empty]);
}

/// `or_changes`, `and_changes` and `and_not_changes` on {0, 3, 6} with {3, 4}, called twice: the set and the reply.
fn changes<R: EnumSetTypeRepr>(rt: &impl Abort, repr: &str) {
    let (a, b) = (R::from_u8(73), R::from_u8(24));
    let (mut or, mut and, mut and_not) = (a, a, a);
    for has_changed in [R::WIDTH != 0, false] {
        let told = [
            or.or_changes(&b),
            and.and_changes(&b),
            and_not.and_not_changes(&b),
        ];
        expect_at(rt, repr, "or_changes and its like", told, [has_changed; 3]);
        let made = [or.to_u8(), and.to_u8(), and_not.to_u8()];
        let wanted = [89, 8, 65].map(|number| kept::<R>(number));
        expect_at(rt, repr, "what they make", made, wanted);
    }
}

/// The ends of {0, 3, 6}, from some bit on, and of the empty set.
fn ends<R: EnumSetTypeRepr>(rt: &impl Abort, repr: &str) {
    let set = R::from_u8(73);
    let (third, last) = (kept_bit::<R>(3), kept_bit::<R>(6));
    let found = [least_bit(&set), greatest_bit(&set)];
    let wanted = [kept_bit::<R>(0), last];
    expect_at(rt, repr, "least and greatest", found, wanted);
    let found = [1, 3, 4, 7, 64, u32::MAX].map(|from| least_bit_from(&set, from));
    let wanted = [third, third, last, None, None, None];
    expect_at(rt, repr, "least_bit_from", found, wanted);
    let none = [least_bit(&R::EMPTY), greatest_bit(&R::EMPTY)];
    expect_at(rt, repr, "of none", none, [None; 2]);
}

/// The calls for one bit or one word of {0, 3, 6}. Over zero words there is none to call them for.
fn bits<R: EnumSetTypeRepr>(rt: &impl Abort, repr: &str) {
    if R::WIDTH > 6 && R::PREFERRED_ARRAY_LEN > 0 {
        let mut set = R::from_u8(24);
        set.add_bit(6);
        set.remove_bit(4);
        let held = [set.has_bit(6), set.has_bit(4)];
        expect_at(rt, repr, "has_bit", held, [true, false]);
        let word = set.word(0);
        set.put_word(0, word | 1);
        expect_at(rt, repr, "put_word", set.to_u8(), 73);
    }
}

/// The items of {0, 3, 6}.
fn items<R: EnumSetTypeRepr>(rt: &impl Abort, repr: &str) {
    let set = R::from_u8(73);
    let mut iter = set.iter();
    let left = [
        set.count_ones() as usize,
        R::items_left(&R::same_iter(&iter)),
    ];
    let wanted = if R::WIDTH == 0 { [0, 0] } else { [3, 3] };
    expect_at(rt, repr, "count_ones and items_left", left, wanted);
    let items = [iter.next(), iter.next_back(), iter.next(), iter.next()];
    let [first, last, other] = [0, 6, 3].map(|bit| kept_bit::<R>(bit));
    expect_at(rt, repr, "next", items, [first, last, other, None]);
}

/// The traits that a representation must implement: equal sets feed a hasher the same data, and a clone of an iterator
/// has the items that are left.
fn bounds<R: EnumSetTypeRepr>(rt: &impl Abort, repr: &str) {
    let (set, other) = (R::from_u8(73), R::from_u8(24));
    set.learn_is_value();
    let are_equal = [
        hash_of(&set) == hash_of(&R::from_u64(73)),
        hash_of(&set) == hash_of(&other),
    ];
    expect_at(rt, repr, "hashes", are_equal, [true, R::WIDTH == 0]);
    let mut iter = set.iter();
    let first = iter.next();
    let mut same = iter.clone().expect(rt, "a clone takes no memory");
    let items = [first, same.next_back(), same.next(), same.next()];
    let [zero, three, six] = [0, 3, 6].map(|bit| kept_bit::<R>(bit));
    expect_at(rt, repr, "clone", items, [zero, six, three, None]);
    expect_at(rt, repr, "next after clone", iter.next(), three);
}

/// The numbers of {0, 3, 6}.
fn numbers<R: EnumSetTypeRepr>(rt: &impl Abort, repr: &str) {
    let (set, wanted) = (R::from_u128(73), kept::<R>(73));
    let numbers = [
        set.to_u8() as u128,
        set.to_u16() as u128,
        set.to_u32() as u128,
        set.to_u64() as u128,
        set.to_usize() as u128,
        set.to_u128(),
    ];
    expect_at(rt, repr, "to_u8 and its like", numbers, [wanted as u128; 6]);
    let tried = [
        set.try_to_u8() == Some(wanted),
        set.try_to_u16() == Some(wanted as u16),
        set.try_to_u32() == Some(wanted as u32),
        set.try_to_u64() == Some(wanted as u64),
        set.try_to_usize() == Some(wanted as usize),
        set.try_to_u128() == Some(wanted as u128),
    ];
    expect_at(rt, repr, "try_to_u8 and its like", tried, [true; 6]);
}

/// Sets from the number of {0, 3, 6}. Over zero words no set has this number.
fn sets_of_numbers<R: EnumSetTypeRepr>(rt: &impl Abort, repr: &str) {
    let set = R::from_u8(73);
    let tried = (R::WIDTH != 0).then_some(set);
    let made = [
        R::from_u16(73) == set,
        R::from_u32(73) == set,
        R::from_u64(73) == set,
        R::from_usize(73) == set,
        R::from_u128(73) == set,
        R::try_from_u8(73) == tried,
        R::try_from_u16(73) == tried,
        R::try_from_u32(73) == tried,
        R::try_from_u64(73) == tried,
        R::try_from_usize(73) == tried,
        R::try_from_u128(73) == tried,
    ];
    expect_at(rt, repr, "from_u8 and its like", made, [true; 11]);
}

/// The words of {0, 3, 6}.
fn words<R: EnumSetTypeRepr>(rt: &impl Abort, repr: &str) {
    let (set, words) = (R::from_u64_slice(&[73]), [73, 0]);
    let wanted = [kept::<R>(73) as u64, 0];
    let mut out = [7; 2];
    set.to_u64_slice(&mut out);
    expect_at(rt, repr, "to_u64_slice", out, wanted);
    let arrays = [Some(to_u64_array(&set)), try_to_u64_array(&set)];
    expect_at(rt, repr, "to_u64_array", arrays, [Some(wanted); 2]);
    let are_empty = R::WIDTH == 0;
    let tried = [
        set.try_to_u64_slice(&mut out).is_some(),
        set.try_to_u64_slice(&mut []).is_some(),
        R::try_from_u64_slice(&words) == Some(set),
        from_u64_array::<R, 2>(words) == set,
        try_from_u64_array::<R, 2>(words) == Some(set),
    ];
    let wanted = [true, are_empty, !are_empty, true, !are_empty];
    expect_at(rt, repr, "slices and arrays", tried, wanted);
}

fn each_call<R: EnumSetTypeRepr>(rt: &impl Abort, repr: &str) {
    operators_in_place::<R>(rt, repr);
    operators::<R>(rt, repr);
    changes::<R>(rt, repr);
    ends::<R>(rt, repr);
    bits::<R>(rt, repr);
    items::<R>(rt, repr);
    bounds::<R>(rt, repr);
    numbers::<R>(rt, repr);
    sets_of_numbers::<R>(rt, repr);
    words::<R>(rt, repr);
}

#[test]
fn each_type_has_each_call(rt: HostRuntime) {
    each_call::<u8>(&rt, "u8");
    each_call::<u16>(&rt, "u16");
    each_call::<u32>(&rt, "u32");
    each_call::<u64>(&rt, "u64");
    each_call::<u128>(&rt, "u128");
    each_call::<ArrayRepr<0>>(&rt, "no word");
    each_call::<ArrayRepr<1>>(&rt, "1 word");
    each_call::<ArrayRepr<5>>(&rt, "5 words");
}
