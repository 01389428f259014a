//! Calls of sets, which the reference shows, each with its answer.

use enumset::{EnumSet, enum_set, laws};
use enumset_worked::Letters;
use enumset_worked::Letters::{A, B, C, D, E, F, G};

#[test]
fn made(rt: HostRuntime) {
    assert!(rt; EnumSet::<Letters>::new().len() == 0);
    assert!(rt; EnumSet::<Letters>::all() == A | B | C | D | E | F | G);
    assert!(rt; EnumSet::only(A) == enum_set!(A));
    assert!(rt; EnumSet::range(B, D) == B | C | D);
}

#[test]
fn questions(rt: HostRuntime) {
    let (ab, bc, abc) = (A | B, B | C, A | B | C);
    assert!(rt; ab.contains(A) && !ab.contains(C));
    assert!(rt; ab.is_subset(abc) && !ab.is_subset(bc));
    assert!(rt; abc.is_superset(ab) && !bc.is_superset(ab));
    assert!(rt; ab.is_disjoint(C | D) && !ab.is_disjoint(bc));
    assert!(rt; enum_set!(A).eq_element(A) && !ab.eq_element(A));
}

#[test]
fn questions_by_reference(rt: HostRuntime) {
    let (ab, bc, abc) = (A | B, B | C, A | B | C);
    assert!(rt; ab.is_subset_of(&abc) && !ab.is_subset_of(&bc));
    assert!(rt; abc.is_superset_of(&ab) && !bc.is_superset_of(&ab));
    assert!(rt; ab.is_disjoint_from(&enum_set!(C)) && !ab.is_disjoint_from(&bc));
}

#[test]
fn bits(rt: HostRuntime) {
    assert!(rt; EnumSet::bit_index(C) == 2);
    assert!(rt; EnumSet::<Letters>::is_bit_valid(6) && !EnumSet::<Letters>::is_bit_valid(7));
    assert!(rt; EnumSet::<Letters>::bit_width() == 7);
    assert!(rt; EnumSet::<Letters>::variant_count() == 7);
}

#[test]
fn ends(rt: HostRuntime) {
    let acf = A | C | F;
    assert!(rt; acf.first() == Some(A) && acf.last() == Some(F));
    assert!(rt; acf.first_from(1) == Some(C) && acf.first_from(6) == None);
}

#[test]
fn operations(rt: HostRuntime) {
    let (ab, bc) = (A | B, B | C);
    assert!(rt; ab.union(bc) == A | B | C);
    assert!(rt; ab.intersection(bc) == enum_set!(B));
    assert!(rt; ab.difference(bc) == enum_set!(A));
    assert!(rt; ab.symmetric_difference(bc) == A | C);
    assert!(rt; ab.symmetrical_difference(bc) == A | C);
    assert!(rt; ab.complement() == C | D | E | F | G);
    assert!(rt; ab.copied() == A | B);
}

#[test]
fn changes(rt: HostRuntime) {
    let mut set = A | B;
    assert!(rt; set.insert(C) && !set.insert(A));
    assert!(rt; set.remove(C) && !set.remove(D));
    assert!(rt; set.toggle(F) && !set.toggle(F));
    set.insert_all(B | C);
    assert!(rt; set == A | B | C);
    set.remove_all(B | D);
    assert!(rt; set == A | C);
    set.set(D, true);
    assert!(rt; set == A | C | D);
    set.retain(|letter| letter != C);
    assert!(rt; set == A | D);
    assert!(rt; set.pop_first() == Some(A) && set.pop_last() == Some(D));
    set.clear();
    assert!(rt; set.is_empty());
}

#[test]
fn changes_by_a_set(rt: HostRuntime) {
    let (mut set, bc) = (A | B, B | C);
    assert!(rt; set.union_with(&bc) && set == A | B | C);
    assert!(rt; set.intersect_with(&bc) && set == bc);
    assert!(rt; set.difference_with(&enum_set!(C)) && set == enum_set!(B));
}

#[test]
fn steps(rt: HostRuntime) {
    let acf = A | C | F;
    assert!(rt; acf.iter().all(|t| t != B) && !acf.iter().all(|t| t != C));
    assert!(rt; acf.iter().any(|t| t == F) && !acf.iter().any(|t| t == B));
    assert!(rt; acf.iter().find(|t| *t != A) == Some(C));
    assert!(rt; acf.iter().rfind(|t| *t != F) == Some(C));
    assert!(rt; acf.iter().position(|t| t == F) == Some(2));
}

#[test]
fn numbers(rt: HostRuntime) {
    let ac = A | C;
    laws::number_and_back(&ac);
    assert!(rt; ac.as_u8() == 5 && ac.try_as_u8() == Some(5));
    assert!(rt; EnumSet::from_u8(ac.as_u8()) == ac);
    assert!(rt; EnumSet::from_u8_unchecked(ac.as_u8()) == ac);
    assert!(rt; EnumSet::try_from_u8(5) == Some(ac));
    assert!(rt; EnumSet::from_u8_truncated(0b1000_0101) == ac);
}

#[test]
fn values_of_a_representation(rt: HostRuntime) {
    let ac = A | C;
    laws::number_and_back(&ac);
    assert!(rt; EnumSet::from_repr(ac.as_repr()) == ac);
    assert!(rt; EnumSet::from_repr_unchecked(ac.as_repr()) == ac);
    assert!(rt; EnumSet::try_from_repr(5) == Some(ac));
    assert!(rt; EnumSet::from_repr_truncated(0b1000_0101) == ac);
}

#[test]
fn words(rt: HostRuntime) {
    let (ac, words) = (A | C, [5]);
    assert!(rt; EnumSet::<Letters>::try_from_array(words).is_some());
    assert!(rt; EnumSet::from_array(words) == ac);
    assert!(rt; EnumSet::from_array_unchecked(words) == ac);
    assert!(rt; EnumSet::try_from_array([5]) == Some(ac));
    assert!(rt; EnumSet::from_array_truncated([0b1000_0101]) == ac);
}

#[test]
fn words_of_slices(rt: HostRuntime) {
    let (ac, words) = (A | C, [5]);
    assert!(rt; EnumSet::<Letters>::try_from_slice(&words).is_some());
    assert!(rt; EnumSet::from_slice(&words) == ac);
    assert!(rt; EnumSet::from_slice_unchecked(&words) == ac);
    assert!(rt; EnumSet::try_from_slice(&[5]) == Some(ac));
    assert!(rt; EnumSet::from_slice_truncated(&[0b1000_0101]) == ac);
}
