//! Sets by macros.

use crate::expect::expect;
use enumset::{
    EnumSet, enum_set, enum_set_complement, enum_set_difference, enum_set_intersection,
    enum_set_symmetric_difference, enum_set_union,
};
use enumset_worked::Four::{A, B, C, D};
use enumset_worked::Letters;

#[test]
fn of_elements(rt: HostRuntime) {
    let made: [EnumSet<Letters>; 3] = [
        enum_set!(),
        enum_set!(|),
        enum_set!(Letters::A | Letters::C |),
    ];
    let numbers = made.map(|set| set.as_u8_truncated());
    expect(&rt, "enum_set", numbers, [0, 0, 5]);
}

#[test]
fn of_sets(rt: HostRuntime) {
    let (all, a, b, c) = (EnumSet::all(), enum_set!(A), enum_set!(B), enum_set!(C));
    let (ab, bc, ad) = (enum_set!(A | B), enum_set!(B | C), enum_set!(A | D));
    let (abd, acd) = (enum_set!(A | B | D), enum_set!(A | C | D));
    for (call, made, wanted) in [
        ("intersection", enum_set_intersection!(ab, bc), b),
        ("complement", enum_set_complement!(bc), ad),
        ("difference", enum_set_difference!(all, bc), ad),
        (
            "symmetric difference",
            enum_set_symmetric_difference!(abd, bc),
            acd,
        ),
        ("difference of three", enum_set_difference!(all, b, c), ad),
        ("union of one", enum_set_union!(a), a),
    ] {
        expect(&rt, call, made.as_u8_truncated(), wanted.as_u8_truncated());
    }
}

#[test]
fn of_two_sets(rt: HostRuntime) {
    let (ab, bc) = (enum_set!(A | B), enum_set!(B | C));
    assert!(rt; enum_set_union!(ab, bc) == enum_set!(A | B | C));
    assert!(rt; enum_set_intersection!(ab, bc) == enum_set!(B));
    assert!(rt; enum_set_difference!(ab, bc) == enum_set!(A));
    assert!(rt; enum_set_symmetric_difference!(ab, bc) == enum_set!(A | C));
    assert!(rt; enum_set_complement!(bc) == enum_set!(A | D));
}
