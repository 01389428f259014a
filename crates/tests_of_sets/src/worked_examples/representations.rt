//! Representations: bits, words and numbers of integers, and sets of words.

use crate::expect::expect;
use enumset_array::ArrayRepr;
use enumset_repr::EnumSetTypeRepr;
use std::cmp::Ordering;

const TOP: u64 = 0x8000_0000_0000_0000;

#[test]
fn a_usize_has_64_bits(rt: HostRuntime) {
    expect(&rt, "usize::BITS", usize::BITS, 64);
}

// {0, 7}: the hint before each step, and the step.
#[test]
fn bits_of_a_byte(rt: HostRuntime) {
    let mut bits = 129u8.iter();
    let steps = [
        (bits.size_hint(), bits.next_back()),
        (bits.size_hint(), bits.next()),
        (bits.size_hint(), bits.next()),
    ];
    let wanted = [
        ((2, Some(2)), Some(7)),
        ((1, Some(1)), Some(0)),
        ((0, Some(0)), None),
    ];
    expect(&rt, "next_back, next, next", steps, wanted);
}

// {64, 127}, which becomes {65}, and {0}, which becomes {7}: bit 8 is dropped.
#[test]
fn words_of_integers(rt: HostRuntime) {
    let mut wide: u128 = 170141183460469231750134047789593657344;
    let words = [wide.word(0), wide.word(1)];
    expect(&rt, "word", words, [0, 9223372036854775809]);
    wide.put_word(1, 2);
    expect(&rt, "put_word(1, 2)", wide, 36893488147419103232);
    let mut narrow: u8 = 1;
    narrow.put_word(0, 384);
    expect(&rt, "put_word(0, 384)", narrow, 128);
}

#[test]
fn bytes_of_numbers(rt: HostRuntime) {
    expect(&rt, "from_u16(257)", u8::from_u16(257), 1);
    expect(&rt, "try_from_u16(257)", u8::try_from_u16(257), None);
    expect(&rt, "try_from_u128(255)", u8::try_from_u128(255), Some(255));
}

#[test]
fn no_word(rt: HostRuntime) {
    let none = ArrayRepr::<0>::EMPTY;
    expect(&rt, "is_empty", none.is_empty(), true);
    let tried = [0, 1].map(ArrayRepr::<0>::try_from_u64);
    expect(&rt, "try_from_u64 of 0, 1", tried, [Some(none), None]);
    expect(&rt, "iter().next()", none.iter().next(), None);
    expect(&rt, "cmp", none.cmp(&none), Ordering::Equal);
}

// a is {0, 255, 256, 319}, b is {255, 319}.
#[test]
fn five_words(rt: HostRuntime) {
    let a = ArrayRepr([1, 0, 0, TOP, TOP + 1]);
    let b = ArrayRepr([0, 0, 0, TOP, TOP]);
    let in_a_alone = ArrayRepr([1, 0, 0, 0, 1]);
    let sets = [a.and_not(b), a ^ b, a & b, a | b];
    let wanted = [in_a_alone, in_a_alone, b, a];
    expect(&rt, "and_not, ^, &, |", sets, wanted);
    let last = ArrayRepr([0, 0, 0, 0, TOP]);
    expect(&rt, "is_empty of {319}", last.is_empty(), false);
    expect(&rt, "count_ones of {319}", last.count_ones(), 1);
}

#[test]
fn sizes_of_full_sets(rt: HostRuntime) {
    let sizes = [
        (!ArrayRepr::<0>::EMPTY).count_ones(),
        (!ArrayRepr::<1>::EMPTY).count_ones(),
        (!ArrayRepr::<3>::EMPTY).count_ones(),
        (!ArrayRepr::<4>::EMPTY).count_ones(),
        (!ArrayRepr::<5>::EMPTY).count_ones(),
        (!ArrayRepr::<8>::EMPTY).count_ones(),
        (!ArrayRepr::<9>::EMPTY).count_ones(),
    ];
    let wanted = [0, 64, 192, 256, 320, 512, 576];
    expect(&rt, "count_ones", sizes, wanted);
}
