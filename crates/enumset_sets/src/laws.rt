//! Laws of members, and of round trips: what one call writes for a set, another call reads back as the same set.
//!
//! Each law is a function over every element type, which does nothing at run time, except [`bits_have_values`]. Code
//! that needs a law calls it, and the proof of that code then knows what the function ensures.

ghost use Rattle.std.specs.Prelude.{◌≡◌, ◌<◌, ◌*◌, ◌^◌, ◌↔◌, ℕ, Bool, IsTrue};
ghost use Rattle.enumset_repr.specs.BitSet.{BitSet, is_in, contains, below, low, intersection, is_subset, len};
ghost use Rattle.enumset_repr.specs.Number.{bits, number};
ghost use Rattle.enumset_repr.specs.Words.{words, bits_of};
ghost use Rattle.enumset_sets.specs.Elements.{valid_bits};

use crate::element::EnumSetType;
use crate::enum_set::EnumSet;
use crate::raw::learn_valid_bits;
use enumset_repr::InjectiveHash;
use std::hash::Hash;

/// Each valid bit is the bit of a value. So a test passes for some member of a set of valid bits exactly if it passes
/// for the bit of some element of the set, and for all members exactly if it passes for the bits of all its elements.
///
/// At run time the call makes each value once, from its bit.
pub fn bits_have_values<T: EnumSetType>()
    ensures value { (bit : ℕ) → IsTrue (is_in bit T.elements.bit_list)
        → (value : T) × (T.elements.bit value ≡ bit) }
    ensures some { (set : BitSet) (test : ℕ → Bool) → IsTrue (is_subset set (valid_bits T.elements))
        → ((bit : ℕ) × IsTrue (contains set bit) × IsTrue (test bit))
        ↔ ((value : T) × IsTrue (contains set (T.elements.bit value)) × IsTrue (test (T.elements.bit value))) }
    ensures all { (set : BitSet) (test : ℕ → Bool) → IsTrue (is_subset set (valid_bits T.elements))
        → ((bit : ℕ) → IsTrue (contains set bit) → IsTrue (test bit))
        ↔ ((value : T) → IsTrue (contains set (T.elements.bit value)) → IsTrue (test (T.elements.bit value))) }
{
    for _value in EnumSet::<T>::all() {}
}

/// Each member of a set is a valid bit, and so one of the list of the element type and below the width of the
/// representation. So a set has fewer than 2³² members.
pub fn members_are_valid<T: EnumSetType>(set: &EnumSet<T>)
    ensures valid { IsTrue (is_subset set.now (valid_bits T.elements)) }
    ensures listed { (bit : ℕ) → IsTrue (contains set.now bit)
        → IsTrue (is_in bit T.elements.bit_list) }
    ensures within { IsTrue (is_subset set.now (below T.Repr.WIDTH)) }
    ensures count { len set.now < 2 ^ 32 }
{
    set.learn_members();
    // The contract of `iter` says how many members there are.
    let _members = set.iter();
}

/// From a set to its number and back: the number represents the same set, and its bits are valid. So if `try_as_u8`
/// returned `Some(n)`, `try_from_u8(n)` returns `Some` of the same set. The same holds for each type of numbers.
pub fn number_and_back<T: EnumSetType>(set: &EnumSet<T>)
    ensures back { bits (number set.now) ≡ set.now }
    ensures valid { IsTrue (is_subset set.now (valid_bits T.elements)) }
{
    set.learn_members();
}

/// From a set to the number of its members below a width, and back: the valid bits of that number are these members. So
/// `from_u8_truncated` of `as_u8_truncated` is the set of the members below 8. The same holds for each type of numbers.
pub fn cut_number_and_back<T: EnumSetType>(set: &EnumSet<T>, width: u32)
    ensures { intersection (bits (number (low set.now width))) (valid_bits T.elements)
        ≡ low set.now width }
{
    set.learn_members();
}

/// From a set to its first `len` words and back: if every member is in one of them, the words represent the same set,
/// and their bits are valid. So if `try_as_array` returned `Some(array)`, `try_from_array(array)` returns `Some` of the
/// same set. The same holds for slices.
pub fn words_and_back<T: EnumSetType>(set: &EnumSet<T>, len: usize)
    ensures back { IsTrue (is_subset set.now (below (64 * len)))
        → bits_of (words set.now len) ≡ set.now }
    ensures valid { IsTrue (is_subset set.now (valid_bits T.elements)) }
{
    set.learn_members();
}

/// From a set to its first `len` words and back: the valid bits of these words are the members below `64 * len`. So
/// `from_array_truncated` of `as_array_truncated` is the set of these members. The same holds for slices.
pub fn cut_words_and_back<T: EnumSetType>(set: &EnumSet<T>, len: usize)
    ensures { intersection (bits_of (words set.now len)) (valid_bits T.elements)
        ≡ low set.now (64 * len) }
{
    set.learn_members();
}

/// From a set to all its words and back: the words represent the same set, and their bits are valid. So `from_slice`
/// may be called with the vector that `to_vec` returned, and returns the same set.
pub fn all_words_and_back<T: EnumSetType>(set: &EnumSet<T>)
    ensures back { bits_of (words set.now T.Repr.PREFERRED_ARRAY_LEN) ≡ set.now }
    ensures valid { IsTrue (is_subset set.now (valid_bits T.elements)) }
{
    set.learn_members();
}

/// Sets that feed a hasher the same data are equal, so sets that differ feed different data. This holds over each
/// representation that is [`InjectiveHash`], as each of this library is.
pub fn hash_is_injective<T: EnumSetType>()
where
    T::Repr: InjectiveHash,
    ensures { (s t : BitSet) → IsTrue (is_subset s (valid_bits T.elements))
        → IsTrue (is_subset t (valid_bits T.elements))
        → ⟦<EnumSet<T> as Hash>⟧.hash_input s ≡ ⟦<EnumSet<T> as Hash>⟧.hash_input t → s ≡ t }
{
    learn_valid_bits::<T>();
}
