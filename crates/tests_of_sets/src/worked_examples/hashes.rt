//! What sets feed to a hasher: the same as their representations.

use crate::expect::expect;
use enumset_mixed::MixedEnumSet;
use enumset_sets::{EnumSet, EnumSetType, raw};
use enumset_worked::{Letters, Marks, Wide};
use std::hash::{Hash, Hasher};

/// Adds up the bytes that it is fed.
#[derive(Drop)]
struct ByteSum(u64);

impl Hasher for ByteSum {
    ghost use Rattle.std.specs.Prelude.{◌+◌, ◌%◌, ◌^◌, fold};

    ghost write = { λ s bytes. record { 0 = fold (λ sum byte. (sum + byte) % 2 ^ 64) s.0 bytes } };

    ghost finish = { λ s. s.0 };

    fn finish(&self) -> u64 {
        self.0
    }

    fn write(&mut self, bytes: &[u8]) {
        for byte in bytes {
            self.0 = self.0.wrapping_add(*byte as u64);
        }
    }
}

fn sum_of<V: Hash>(value: &V) -> u64 {
    let mut sum = ByteSum(0);
    value.hash(&mut sum);
    sum.finish()
}

/// The sum for a set of one element, and for its representation.
fn sums<T: EnumSetType>(element: T) -> [u64; 2] {
    let set = EnumSet::only(element);
    [sum_of(&set), sum_of(&raw::get(set))]
}

/// The sum for the mixed set of a number, and for its representation.
fn mixed_sums(number: u8) -> [u64; 2] {
    let set = MixedEnumSet::<Marks>::from_repr(number);
    [sum_of(&set), sum_of(&set.as_repr())]
}

#[test]
fn sums_of_bytes(rt: HostRuntime) {
    for (types, [[one, in_one], [other, in_other]]) in [
        ("letters, {A} and {B}", [sums(Letters::A), sums(Letters::B)]),
        ("wide, {P} and {R}", [sums(Wide::P), sums(Wide::R)]),
        ("marks, 1 and 9", [mixed_sums(1), mixed_sums(9)]),
    ] {
        expect(&rt, types, [one, other], [in_one, in_other]);
        expect(&rt, types, one == other, false);
    }
}
