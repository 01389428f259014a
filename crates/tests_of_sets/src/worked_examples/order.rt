//! The order of sets: the greatest bit that is in one of two sets alone decides.

use crate::expect::expect;
use enumset_sets::EnumSet;
use enumset_worked::Wide::{P, Q, R};
use enumset_worked::{PairNumber, PairWords, Wide};
use std::cmp::Ordering::{Greater, Less};
use std::test::Fail;

#[test]
fn pairs(rt: HostRuntime) {
    let orders = [
        EnumSet::only(PairWords::A).cmp(&EnumSet::only(PairWords::B)),
        EnumSet::only(PairNumber::A).cmp(&EnumSet::only(PairNumber::B)),
    ];
    expect(&rt, "{A} and {B}", orders, [Less, Less]);
}

#[test]
fn sets_of_wide(rt: HostRuntime) {
    let orders = [
        EnumSet::only(R).cmp(&EnumSet::from([P, Q])),
        EnumSet::from([P, R]).cmp(&EnumSet::from([Q, R])),
        EnumSet::only(P).cmp(&EnumSet::from([P, R])),
        EnumSet::from([P, Q]).cmp(&EnumSet::all()),
    ];
    expect(&rt, "cmp", orders, [Greater, Less, Less, Less]);
}

#[test]
fn all_eight_sets_of_wide(rt: HostRuntime) -> Result<(), Fail> {
    let mut sets = Vec::new(rt.alloc());
    for number in [7, 4, 1, 6, 0, 3, 5, 2] {
        let words = [number << 3 & 8, number >> 1 & 1, number & 4];
        sets.push(EnumSet::<Wide>::from_array_truncated(words))?;
    }
    sets.sort()?;
    let mut text = String::new(rt.alloc());
    for set in &sets {
        write!(text, "{{{set}}} ")?;
    }
    let wanted = "{} {P} {Q} {P | Q} {R} {P | R} {Q | R} {P | Q | R} ";
    expect(&rt, "sort", text.as_str(), wanted);
    Ok(())
}
