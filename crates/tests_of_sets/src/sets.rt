//! Tests of sets and mixed sets at the worked types: here the calls of a set that no command makes, at `letters`.

mod chains;
mod conversions;
mod far_bits;
mod hashes;
mod items;
mod long_texts;
mod mixed;
mod mixed_chains;
mod operators;
mod texts;

use crate::expect::expect;
use enumset_mixed::MixedEnumSet;
use enumset_sets::{EnumSet, EnumSetType, laws, raw};
use enumset_worked::{Letters, Marks, Wide};
use std::process::Abort;

/// The set of two elements.
pub fn two_of<T: EnumSetType>(a: T, b: T) -> EnumSet<T> {
    EnumSet::only(a).union(EnumSet::only(b))
}

/// The mixed set of a number.
pub fn marks(number: u8) -> MixedEnumSet<Marks> {
    MixedEnumSet::from_repr(number)
}

/// Tests sets by their numbers. To compare sets in each test would take seconds more to prove.
pub fn expect_letters(rt: &impl Abort, call: &str, sets: &[EnumSet<Letters>], wanted: &[u8]) {
    expect(rt, call, sets.len(), wanted.len());
    for (set, number) in sets.iter().zip(wanted) {
        expect(rt, call, set.as_repr(), *number);
    }
}

/// Tests mixed sets by their numbers.
pub fn expect_marks(rt: &impl Abort, call: &str, sets: &[MixedEnumSet<Marks>], wanted: &[u8]) {
    expect(rt, call, sets.len(), wanted.len());
    for (set, number) in sets.iter().zip(wanted) {
        expect(rt, call, set.as_repr(), *number);
    }
}

#[test]
fn sets_of_letters(rt: HostRuntime) {
    let (only, set) = (EnumSet::only(Letters::A), two_of(Letters::A, Letters::C));
    laws::number_and_back(&set);
    let sets = [
        set.clone().unwrap(),
        set.copied(),
        raw::new(raw::get(set)),
        EnumSet::from_repr(set.as_repr()),
        EnumSet::from_repr_unchecked(set.as_repr()),
        EnumSet::from_repr_truncated(133),
        EnumSet::try_from_repr(5).unwrap_or(only),
        only.symmetrical_difference(EnumSet::only(Letters::C)),
    ];
    expect_letters(&rt, "copies and others", &sets, &[5; 8]);
    let none = [EnumSet::empty(), EnumSet::default(), EnumSet::new()];
    expect_letters(&rt, "empty and default", &none, &[0; 3]);
    let answers = [
        EnumSet::<Letters>::try_from_repr(133).is_none(),
        only.eq_element(Letters::A),
        only < set,
    ];
    expect(&rt, "answers", answers, [true; 3]);
    let numbers = [
        EnumSet::bit_index(Letters::C),
        EnumSet::<Letters>::bit_width(),
        EnumSet::<Letters>::variant_count(),
    ];
    expect(&rt, "bit_index and its like", numbers, [2, 7, 7]);
}

/// {A, C, F}.
fn some_letters() -> EnumSet<Letters> {
    two_of(Letters::A, Letters::C).union(EnumSet::only(Letters::F))
}

#[test]
fn letters_in_place(rt: HostRuntime) {
    let other = two_of(Letters::C, Letters::D);
    let (mut united, mut shared, mut left) = (some_letters(), some_letters(), some_letters());
    for has_changed in [true, false] {
        let told = [
            united.union_with(&other),
            shared.intersect_with(&other),
            left.difference_with(&other),
        ];
        expect(&rt, "what the calls say", told, [has_changed; 3]);
        let made = [united.as_u8(), shared.as_u8(), left.as_u8()];
        expect(&rt, "what the calls make", made, [45, 4, 33]);
    }
    let mut set = some_letters();
    let told = [set.toggle(Letters::B), set.toggle(Letters::C)];
    expect(&rt, "toggle", told, [true, false]);
    set.set(Letters::D, true);
    set.set(Letters::F, false);
    expect(&rt, "toggle and set", set.as_u8(), 11);
    set.retain(|letter| letter != Letters::B);
    expect(&rt, "retain", set.as_u8(), 9);
    set.retain(|letter| other.contains(letter));
    expect(&rt, "retain, by another set", set.as_u8(), 8);
}

// No clause says what a closure that changes a variable leaves in it. The digits are the bits of the calls, each plus
// one.
#[test]
fn retain_calls_once_for_each_letter(rt: HostRuntime) {
    let (mut set, mut calls) = (some_letters(), 0u32);
    set.retain(|letter| {
        calls = calls
            .wrapping_mul(10)
            .wrapping_add(EnumSet::bit_index(letter))
            .wrapping_add(1);
        letter != Letters::C
    });
    expect(&rt, "retain", (calls, set.as_u8()), (136, 33));
}

#[test]
fn letters_by_reference(rt: HostRuntime) {
    let (few, many) = (two_of(Letters::A, Letters::C), some_letters());
    let answers = [
        few.is_subset_of(&many),
        few.is_superset_of(&many),
        few.is_disjoint_from(&many),
    ];
    expect(&rt, "answers", answers, [true, false, false]);
}

#[test]
fn ranges(rt: HostRuntime) {
    let letters = [
        EnumSet::range(Letters::B, Letters::D),
        EnumSet::range(Letters::C, Letters::C),
        EnumSet::range(Letters::D, Letters::B),
        EnumSet::range(Letters::A, Letters::G),
    ];
    let numbers = letters.map(|set| set.as_u8());
    expect(&rt, "of letters", numbers, [14, 4, 0, 127]);
    let wide = [
        EnumSet::range(Wide::P, Wide::Q),
        EnumSet::range(Wide::Q, Wide::R),
        EnumSet::range(Wide::R, Wide::P),
    ];
    let words = wide.map(|set| set.as_array_truncated());
    let wanted = [[8, 1, 0], [0, 1, 4], [0; 3]];
    expect(&rt, "over words", words, wanted);
}

#[test]
fn ends_of_letters(rt: HostRuntime) {
    let mut set = some_letters();
    let found = [set.first(), set.last()];
    let wanted = [Some(Letters::A), Some(Letters::F)];
    expect(&rt, "first and last", found, wanted);
    let found = [1, 2, 3, 6, u32::MAX].map(|bit| set.first_from(bit));
    let (c, f) = (Some(Letters::C), Some(Letters::F));
    expect(&rt, "first_from", found, [c, c, f, None, None]);
    let popped = [set.pop_first(), set.pop_last(), set.pop_first()];
    expect(&rt, "pops", popped, [Some(Letters::A), f, c]);
    let popped = [set.pop_first(), set.pop_last(), set.first(), set.last()];
    expect(&rt, "of none", popped, [None; 4]);
}
