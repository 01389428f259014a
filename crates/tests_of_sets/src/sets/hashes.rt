//! What sets feed to a hasher, over an integer and over words.
use crate::expect::expect;
use crate::hash_of::hash_of;
use crate::sets::marks;
use enumset_mixed::MixedValue;
use enumset_sets::{EnumSet, EnumSetType, raw};
use enumset_worked::{Letters, Marks, Wide};

/// The hash of a set of one element, and of the value that represents it.
fn hashes<T: EnumSetType>(element: T) -> [u64; 2] {
    let set = EnumSet::only(element);
    [hash_of(&set), hash_of(&raw::get(set))]
}

#[test]
fn a_set_feeds_a_hasher_its_representation(rt: HostRuntime) {
    let ([a, in_a], [b, in_b]) = (hashes(Letters::A), hashes(Letters::B));
    let ([p, in_p], [r, in_r]) = (hashes(Wide::P), hashes(Wide::R));
    expect(&rt, "hash", [a, b, p, r], [in_a, in_b, in_p, in_r]);
    let (set, other) = (marks(1), marks(9));
    let (valid, unknown) = (MixedValue::Valid(Marks::C), MixedValue::<Marks>::Invalid(2));
    let are_equal = [
        p == r,
        a == b,
        hash_of(&set) == hash_of(&other),
        hash_of(&valid) == hash_of(&unknown),
    ];
    expect(&rt, "hashes", are_equal, [false; 4]);
}
