//! Tests of the calls with which chains over the members of a mixed set begin, at `marks`.

use crate::expect::expect;
use crate::sets::marks;
use enumset_mixed::{MixedEnumSet, MixedValue};
use enumset_worked::Marks;
use std::test::Fail;

const A: MixedValue<Marks> = MixedValue::Valid(Marks::A);

const B: MixedValue<Marks> = MixedValue::Valid(Marks::B);

const C: MixedValue<Marks> = MixedValue::Valid(Marks::C);

const BIT_7: MixedValue<Marks> = MixedValue::Invalid(7);

/// {A, C}, and the unknown bit 7.
fn some_marks() -> MixedEnumSet<Marks> {
    marks(133)
}

#[test]
fn tests_of_members(rt: HostRuntime) {
    let (set, none) = (some_marks(), MixedEnumSet::<Marks>::new());
    let all = [
        set.iter().all(|m| m != B),
        set.iter().all(|m| matches!(m, MixedValue::Valid(_))),
        none.iter().all(|m| m == A),
    ];
    expect(&rt, "all", all, [true, false, true]);
    let any = [
        set.iter().any(|m| m == BIT_7),
        set.iter().any(|m| m == B),
        none.iter().any(|m| m != A),
    ];
    expect(&rt, "any", any, [true, false, false]);
    let places = [
        set.iter().position(|m| m == BIT_7),
        set.iter().position(|m| m == B),
    ];
    expect(&rt, "position", places, [Some(2), None]);
    expect(
        &rt,
        "count",
        (set.iter().count(), none.iter().count()),
        (3, 0),
    );
    expect(
        &rt,
        "last",
        [set.iter().last(), none.iter().last()],
        [Some(BIT_7), None],
    );
}

#[test]
fn rest_after_a_member(rt: HostRuntime) {
    let mut iter = some_marks().iter();
    expect(&rt, "find", iter.find(|m| *m != A), Some(C));
    let rest = [iter.next(), iter.next()];
    expect(&rt, "what is left", rest, [Some(BIT_7), None]);
    let mut iter = some_marks().iter();
    expect(&rt, "rfind", iter.rfind(|m| *m != BIT_7), Some(C));
    let rest = [iter.next_back(), iter.next_back()];
    expect(&rt, "what is left", rest, [Some(A), None]);
    let mut iter = some_marks().iter();
    let found = [iter.find(|m| *m == B), iter.next()];
    expect(&rt, "nothing found", found, [None, None]);
}

#[test]
fn collected_members(rt: HostRuntime) -> Result<(), Fail> {
    let listed: Vec<MixedValue<Marks>> = some_marks().iter().collect(rt.alloc())?;
    expect(
        &rt,
        "collect",
        listed.as_slice() == [A, C, BIT_7].as_slice(),
        true,
    );
    Ok(())
}

#[test]
fn filtered_members(rt: HostRuntime) -> Result<(), Fail> {
    let set = some_marks();
    let others = |m: &MixedValue<Marks>| *m != C;
    expect(&rt, "count", set.iter().filter(others).count(), 2);
    let ends = [
        set.iter().filter(others).next(),
        set.iter().filter(others).next_back(),
    ];
    expect(&rt, "ends", ends, [Some(A), Some(BIT_7)]);
    let listed: Vec<MixedValue<Marks>> = set.iter().filter(others).collect(rt.alloc())?;
    expect(
        &rt,
        "a list",
        listed.as_slice() == [A, BIT_7].as_slice(),
        true,
    );
    Ok(())
}
