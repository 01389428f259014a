//! The calls of a mixed set and of its iterator that no command makes, and their texts.

use crate::expect::expect;
use crate::sets::{expect_marks, marks};
use enumset_mixed::{MixedEnumSet, MixedValue, convert_mixed};
use enumset_sets::EnumSet;
use enumset_worked::{Letters, Marks};
use std::test::Fail;

#[test]
fn sets_of_marks(rt: HostRuntime) {
    let set = MixedEnumSet::<Marks>::from_repr(9);
    let only_c = EnumSet::only(Marks::C);
    let mixed_c = MixedEnumSet::only(Marks::C);
    let sets = [
        MixedEnumSet::empty(),
        MixedEnumSet::default(),
        set.copied(),
        set.clone().unwrap(),
        MixedEnumSet::from_repr_truncated(9),
        set.symmetrical_difference(MixedEnumSet::from_repr(12)),
        convert_mixed(only_c),
    ];
    expect_marks(&rt, "calls that make sets", &sets, &[0, 0, 9, 9, 1, 5, 4]);
    expect(&rt, "as_repr", set.as_repr(), 9);
    if mixed_c.try_as_enumset().is_some() {
        expect(&rt, "as_enumset", mixed_c.as_enumset().as_repr(), 4);
    }
    let equal = [
        mixed_c.eq_element(Marks::C),
        mixed_c.eq_enumset(EnumSet::only(Marks::A)),
        MixedValue::Valid(Marks::C) < MixedValue::Invalid(0),
    ];
    expect(&rt, "eq_element and others", equal, [true, false, true]);
    let numbers = [
        MixedEnumSet::bit_index(Marks::C),
        MixedEnumSet::<Marks>::variant_count(),
    ];
    expect(&rt, "bit_index and variant_count", numbers, [2, 3]);
}

#[test]
fn marks_in_place(rt: HostRuntime) {
    let (other, set) = (marks(6), marks(11));
    let (mut united, mut shared, mut left) = (set, set, set);
    for has_changed in [true, false] {
        let told = [
            united.union_with(&other),
            shared.intersect_with(&other),
            left.difference_with(&other),
        ];
        expect(&rt, "what the calls say", told, [has_changed; 3]);
        let made = [united.as_repr(), shared.as_repr(), left.as_repr()];
        expect(&rt, "what the calls make", made, [15, 2, 9]);
    }
    let ends = [left.first(), left.last(), MixedEnumSet::new().last()];
    let wanted = [
        Some(MixedValue::Valid(Marks::A)),
        Some(MixedValue::Invalid(3)),
        None,
    ];
    expect(&rt, "first and last", ends, wanted);
}

#[test]
fn marks_by_reference(rt: HostRuntime) {
    let (few, many) = (marks(1), marks(9));
    let answers = [
        few.is_subset_of(&many),
        few.is_superset_of(&many),
        few.is_disjoint_from(&many),
    ];
    expect(&rt, "answers", answers, [true, false, false]);
}

#[test]
fn texts_of_marks(rt: HostRuntime) -> Result<(), Fail> {
    let (none, set) = (MixedEnumSet::<Marks>::new(), marks(9));
    let mut iter = set.iter();
    let text = format!(in rt.alloc(); "<{none}> <{set}> {set:?} {iter:?}")?;
    let wanted = "<> <A | [3]> MixedEnumSet(A | [3]) MixedEnumSetIter { iter: PrimitiveIter(9) }";
    expect(&rt, "{} and {:?}", text.as_str(), wanted);
    let (letter, unknown) = (
        MixedValue::Valid(Letters::G),
        MixedValue::<Letters>::Invalid(7),
    );
    let text = format!(in rt.alloc(); "{letter} {letter:?} {unknown} {unknown:?}")?;
    expect(&rt, "members", text.as_str(), "G G [7] [7]");
    let same = iter.clone().unwrap();
    let (left, hint) = (same.len(), iter.size_hint());
    let (back, front) = (iter.next_back(), iter.next());
    let wanted = (
        Some(MixedValue::Invalid(3)),
        Some(MixedValue::Valid(Marks::A)),
    );
    expect(&rt, "next_back and next", (back, front), wanted);
    expect(&rt, "len and size_hint", (left, hint), (2, (2, Some(2))));
    Ok(())
}
