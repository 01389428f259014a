//! The examples in the documentation of the crate `enumset`.

use enumset::{EnumSet, enum_set};
use enumset_worked::Letters;

fn outer() -> EnumSet<Letters> {
    enum_set!(Letters::A | Letters::G)
}

#[test]
fn sets_of_elements(rt: HostRuntime) {
    let set = Letters::A | Letters::C | Letters::G;
    assert!(rt; set.len() == 3);
}

#[test]
fn operators(rt: HostRuntime) {
    let (ab, bc) = (Letters::A | Letters::B, Letters::B | Letters::C);
    assert!(rt; ab & bc == enum_set!(Letters::B));
    assert!(rt; ab - bc == enum_set!(Letters::A));
    assert!(rt; ab ^ bc == Letters::A | Letters::C);
    assert!(rt; !(ab | bc) == Letters::D | Letters::E | Letters::F | Letters::G);
}

#[test]
fn sets_by_a_macro(rt: HostRuntime) {
    assert!(rt; outer() == Letters::A | Letters::G);
}

#[test]
fn changes(rt: HostRuntime) {
    let mut set = EnumSet::new();
    set.insert(Letters::A);
    set.insert_all(Letters::E | Letters::G);
    assert!(rt; set.contains(Letters::A) && !set.contains(Letters::B));
    assert!(rt; set == Letters::A | Letters::E | Letters::G);
}
