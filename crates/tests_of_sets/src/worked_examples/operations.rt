//! Sets of letters after operations with elements and with other sets.

use super::number;
use crate::expect::expect;
use enumset_sets::EnumSet;
use enumset_worked::Letters::{A, B, C};

#[test]
fn elements(rt: HostRuntime) {
    let mut set = EnumSet::empty();
    let told = [set.insert(A), set.insert(A), set.remove(B)];
    let wanted = [true, false, false];
    expect(&rt, "insert A, insert A, remove B", told, wanted);
    let sets = [EnumSet::only(A), EnumSet::only(A), EnumSet::only(C)];
    let sum: EnumSet<_> = sets.iter().copied().sum();
    let wanted = number(EnumSet::from([A, C]));
    expect(&rt, "the sum of {A}, {A}, {C}", number(sum), wanted);
}

#[test]
fn sets(rt: HostRuntime) {
    let (ab, bc) = (EnumSet::from([A, B]), EnumSet::from([B, C]));
    let (abc, ac) = (EnumSet::from([A, B, C]), EnumSet::from([A, C]));
    let made = [ab & EnumSet::only(C), ab ^ bc, abc - EnumSet::only(B)];
    let wanted = [EnumSet::empty(), ac, ac].map(number);
    expect(&rt, "&, ^, -", made.map(number), wanted);
}
