//! Sizes in bytes.
//!
//! A set takes the bytes of its representation: of its integer, or 8 for each word. Its iterator takes as many, and
//! over words 16 more, for two cursors. Each pattern of bits is a set, so an `Option` needs a flag, which takes as many
//! bytes as the alignment: the size of the integer, or 8 over words.
use crate::expect::expect;
use enumset::set::{EnumSet, EnumSetIter, MixedEnumSet, MixedEnumSetIter};
use enumset_worked::{Letters, PairWords, Sparse, Wide};
use std::mem::size_of;
use types_for_tests::{In32Bits, Of64, Priority};

/// The sizes of a set, of an optional set and of an iterator.
macro_rules! sizes {
    ($set:ident, $iter:ident, $type:ty) => {
        [
            size_of::<$set<$type>>(),
            size_of::<Option<$set<$type>>>(),
            size_of::<$iter<$type>>(),
        ]
    };
}

#[test]
fn each_representation_has_its_sizes(rt: HostRuntime) {
    for (repr, sizes, wanted) in [
        ("u8", sizes!(EnumSet, EnumSetIter, Letters), [1, 2, 1]),
        ("u16", sizes!(EnumSet, EnumSetIter, Priority), [2, 4, 2]),
        ("u32", sizes!(EnumSet, EnumSetIter, In32Bits), [4, 8, 4]),
        ("u64", sizes!(EnumSet, EnumSetIter, Of64), [8, 16, 8]),
        ("u128", sizes!(EnumSet, EnumSetIter, Sparse), [16, 32, 16]),
        (
            "2 words",
            sizes!(EnumSet, EnumSetIter, PairWords),
            [16, 24, 32],
        ),
        ("3 words", sizes!(EnumSet, EnumSetIter, Wide), [24, 32, 40]),
        (
            "mixed u8",
            sizes!(MixedEnumSet, MixedEnumSetIter, Letters),
            [1, 2, 1],
        ),
        (
            "mixed u128",
            sizes!(MixedEnumSet, MixedEnumSetIter, Sparse),
            [16, 32, 16],
        ),
        (
            "mixed 2 words",
            sizes!(MixedEnumSet, MixedEnumSetIter, PairWords),
            [16, 24, 32],
        ),
    ] {
        expect(&rt, repr, sizes, wanted);
    }
}
