//! Tests of the calls with which chains over the elements of a set begin, at `letters`.

use crate::expect::expect;
use crate::sets::{expect_letters, some_letters};
use enumset_sets::EnumSet;
use enumset_worked::Letters;
use std::test::Fail;

#[test]
fn tests_of_elements(rt: HostRuntime) {
    let set = some_letters();
    let all = [
        set.iter().all(|t| t != Letters::B),
        set.iter().all(|t| t != Letters::C),
        EnumSet::<Letters>::new().iter().all(|t| t == Letters::A),
    ];
    expect(&rt, "all", all, [true, false, true]);
    let any = [
        set.iter().any(|t| t == Letters::F),
        set.iter().any(|t| t == Letters::B),
        EnumSet::<Letters>::new().iter().any(|t| t != Letters::A),
    ];
    expect(&rt, "any", any, [true, false, false]);
    let found = [
        set.iter().find(|t| *t != Letters::A),
        set.iter().find(|t| *t == Letters::B),
    ];
    expect(&rt, "find", found, [Some(Letters::C), None]);
    let found = [
        set.iter().rfind(|t| *t != Letters::F),
        set.iter().rfind(|t| *t == Letters::B),
    ];
    expect(&rt, "rfind", found, [Some(Letters::C), None]);
    let places = [
        set.iter().position(|t| t == Letters::F),
        set.iter().position(|t| t == Letters::B),
    ];
    expect(&rt, "position", places, [Some(2), None]);
}

#[test]
fn rest_after_a_test(rt: HostRuntime) {
    let mut iter = some_letters().iter();
    let found = iter.find(|t| *t != Letters::A);
    expect(&rt, "find", found, Some(Letters::C));
    let rest = [iter.next(), iter.next()];
    expect(&rt, "what is left", rest, [Some(Letters::F), None]);
    let mut iter = some_letters().iter();
    let found = iter.rfind(|t| *t != Letters::F);
    expect(&rt, "rfind", found, Some(Letters::C));
    let rest = [iter.next_back(), iter.next_back()];
    expect(&rt, "what is left", rest, [Some(Letters::A), None]);
    let mut iter = some_letters().iter();
    iter.next();
    expect(&rt, "last", iter.last(), Some(Letters::F));
    expect(&rt, "count", some_letters().iter().count(), 3);
    expect(
        &rt,
        "no last",
        EnumSet::<Letters>::new().iter().last(),
        None,
    );
}

#[test]
fn filtered_letters(rt: HostRuntime) -> Result<(), Fail> {
    let set = some_letters();
    let others = |t: &Letters| *t != Letters::C;
    expect(&rt, "count", set.iter().filter(others).count(), 2);
    let ends = [
        set.iter().filter(others).next(),
        set.iter().filter(others).next_back(),
    ];
    expect(&rt, "ends", ends, [Some(Letters::A), Some(Letters::F)]);
    let all: EnumSet<Letters> = set.iter().collect(rt.alloc())?;
    let kept: EnumSet<Letters> = set.iter().filter(others).collect(rt.alloc())?;
    expect_letters(&rt, "collect", &[all, kept], &[37, 33]);
    let listed: Vec<Letters> = set.iter().filter(others).collect(rt.alloc())?;
    expect(&rt, "a list", listed.len(), 2);
    Ok(())
}
