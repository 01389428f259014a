//! Calls of mixed sets, which the reference shows, each with its answer. No mark has bit 3.

use enumset::set::{MixedEnumSet, MixedValue};
use enumset::{enum_set, mixed_enum_set};
use enumset_worked::Marks;
use enumset_worked::Marks::{A, B, C};

#[test]
fn questions(rt: HostRuntime) {
    let (set, a) = (MixedEnumSet::<Marks>::from_repr(9), mixed_enum_set!(A));
    assert!(rt; set.len() == 2 && set.valid_len() == 1);
    assert!(rt; set.has_bit(3) && !a.has_bit(3));
    assert!(rt; set.has_unknown_bits() && !a.has_unknown_bits());
    assert!(rt; !set.is_empty() && MixedEnumSet::<Marks>::new().is_empty());
    assert!(rt; set.is_disjoint(mixed_enum_set!(B | C)) && !set.is_disjoint(a));
}

#[test]
fn comparisons(rt: HostRuntime) {
    let (set, a) = (MixedEnumSet::<Marks>::from_repr(9), mixed_enum_set!(A));
    assert!(rt; a.eq_element(A) && !set.eq_element(A));
    assert!(rt; a.eq_enumset(enum_set!(A)) && !set.eq_enumset(enum_set!(A)));
}

#[test]
fn members(rt: HostRuntime) {
    let set = MixedEnumSet::<Marks>::from_repr(9);
    assert!(rt; set.first() == Some(MixedValue::Valid(A)));
    assert!(rt; set.last() == Some(MixedValue::Invalid(3)));
}

#[test]
fn sets(rt: HostRuntime) {
    let (set, a) = (MixedEnumSet::<Marks>::from_repr(9), mixed_enum_set!(A));
    assert!(rt; set.try_as_enumset() == None && a.try_as_enumset() == Some(enum_set!(A)));
    assert!(rt; set.as_enumset_truncate() == enum_set!(A));
    assert!(rt; MixedEnumSet::<Marks>::all().as_repr() == 7);
    assert!(rt; MixedEnumSet::<Marks>::from_repr_truncated(9) == a);
    assert!(rt; set.complement().as_repr() == 6 && set.full_complement().as_repr() == 246);
}

#[test]
fn changes(rt: HostRuntime) {
    let mut set = mixed_enum_set!(A);
    assert!(rt; set.insert_bit(3) && set.as_repr() == 9);
    assert!(rt; set.remove_bit(0) && set.as_repr() == 8);
    set.clear();
    assert!(rt; set.is_empty());
}
