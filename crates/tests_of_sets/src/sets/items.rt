//! Sets of items, by the traits of std.
use crate::expect::expect;
use crate::sets::{expect_letters, expect_marks};
use enumset_mixed::MixedEnumSet;
use enumset_sets::EnumSet;
use enumset_worked::{Letters, Marks};
use std::test::Fail;

#[test]
fn sets_are_made_of_items(rt: HostRuntime) -> Result<(), Fail> {
    let letters = [Letters::A, Letters::A, Letters::C];
    let mut extended = EnumSet::from(Letters::B);
    extended.extend(letters)?;
    let pair = [EnumSet::from(Letters::A), EnumSet::only(Letters::C)];
    let sets = [
        EnumSet::from(letters),
        letters.iter().copied().collect(rt.alloc())?,
        pair.iter().copied().sum(),
        extended,
    ];
    expect_letters(&rt, "sets", &sets, &[5, 5, 5, 7]);
    let mut text = String::new(rt.alloc());
    for letter in extended {
        write!(text, "{letter} ")?;
    }
    for letter in extended.iter().rev() {
        write!(text, "{letter} ")?;
    }
    expect(&rt, "into_iter and rev", text.as_str(), "A B C C B A ");
    Ok(())
}

#[test]
fn mixed_sets_are_made_of_items(rt: HostRuntime) -> Result<(), Fail> {
    let marks = [Marks::A, Marks::C, Marks::A];
    let mut extended = MixedEnumSet::from_repr(128);
    extended.extend(marks)?;
    let pair = [MixedEnumSet::from(Marks::B), MixedEnumSet::from_repr(10)];
    let sets = [
        MixedEnumSet::from(marks),
        MixedEnumSet::from(EnumSet::from(marks)),
        marks.iter().copied().collect(rt.alloc())?,
        pair.iter().copied().sum(),
        extended,
    ];
    expect_marks(&rt, "sets", &sets, &[5, 5, 5, 10, 133]);
    let mut text = String::new(rt.alloc());
    for member in extended {
        write!(text, "{member:?} ")?;
    }
    expect(&rt, "into_iter", text.as_str(), "A C [7] ");
    Ok(())
}
