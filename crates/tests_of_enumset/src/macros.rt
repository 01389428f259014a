//! The macros, at element types.
use crate::expect::expect;
use enumset::{
    EnumSet, enum_set, enum_set_complement, enum_set_difference, enum_set_intersection,
    enum_set_symmetric_difference, enum_set_union, mixed_enum_set,
};
use enumset_worked::{Four, Letters, Marks};

#[test]
fn elements_make_sets(rt: HostRuntime) {
    let letters: [EnumSet<Letters>; 6] = [
        enum_set!(),
        enum_set!(| |),
        enum_set!(Letters::B | |),
        enum_set!(Letters::A | Letters::C | |),
        enum_set!(Letters::A | Letters::C | Letters::G),
        enum_set!(Letters::A | Letters::A),
    ];
    let numbers = letters.map(|set| set.as_u8_truncated());
    expect(&rt, "enum_set", numbers, [0, 0, 2, 5, 69, 1]);
    let marks = [
        mixed_enum_set!(),
        mixed_enum_set!(Marks::B),
        mixed_enum_set!(Marks::B | Marks::C |),
    ];
    let numbers = marks.map(|set| set.as_repr());
    expect(&rt, "mixed_enum_set", numbers, [0, 2, 6]);
}

#[test]
fn sets_have_operations(rt: HostRuntime) {
    let (all, a) = (EnumSet::<Four>::all(), enum_set!(Four::A));
    let (abd, bc) = (
        enum_set!(Four::A | Four::B | Four::D),
        enum_set!(Four::B | Four::C),
    );
    let sets = [
        enum_set_union!(a),
        enum_set_union!(a, abd, bc,),
        enum_set_intersection!(bc),
        enum_set_intersection!(abd, bc),
        enum_set_intersection!(abd, all, bc,),
        enum_set_difference!(abd),
        enum_set_difference!(all, bc),
        enum_set_difference!(all, bc, a,),
        enum_set_symmetric_difference!(abd),
        enum_set_symmetric_difference!(abd, bc),
        enum_set_symmetric_difference!(abd, bc, a,),
        enum_set_complement!(bc),
        enum_set_complement!(a,),
    ];
    let numbers = sets.map(|set| set.as_u8_truncated());
    let wanted = [1, 15, 6, 2, 2, 11, 9, 8, 11, 13, 12, 9, 14];
    expect(&rt, "operations", numbers, wanted);
}
