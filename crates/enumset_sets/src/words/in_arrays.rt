//! Sets to and from arrays of words.

ghost use Rattle.std.specs.Prelude.{◌≡◌, ◌<◌, ◌↔◌, ◌*◌, IsTrue, IsSome, IfSome};
ghost use Rattle.enumset_repr.specs.BitSet as set;
ghost use Rattle.enumset_repr.specs.Words.{words, bits_of};
ghost use Rattle.enumset_sets.specs.Elements.{valid_bits};

use crate::element::EnumSetType;
use crate::enum_set::EnumSet;
use crate::raw::{exact, truncated, validated_low};
use enumset_repr::{from_u64_array, to_u64_array, try_from_u64_array, try_to_u64_array};

#[tactic(auto, using(crate::specs::Laws::Conversions::conversions))]
impl<T: EnumSetType> EnumSet<T> {
    /// Returns the words of the set, of 64 bits each, the lowest first. Words past the last word of the representation
    /// are 0. Every member must be below `64 * O`, which always holds if the representation has no more bits.
    /// [`try_as_array`](EnumSet::try_as_array) tests this. Rust's call panics instead.
    pub fn as_array<const O: usize>(&self) -> [u64; O]
        requires fits { 64 * O < T.Repr.WIDTH → IsTrue (set.is_subset self.now (set.below (64 * O))) }
        ensures { result ≡ words self.now O }
    {
        self.as_array_truncated()
    }

    /// Returns the words of the set, of 64 bits each, the lowest first, if every member is below `64 * O`, else `None`.
    /// Words past the last word of the representation are 0.
    pub fn try_as_array<const O: usize>(&self) -> Option<[u64; O]>
        ensures fits { IsSome result ↔ IsTrue (set.is_subset self.now (set.below (64 * O))) }
        ensures value { IfSome result (λ ws. ws ≡ words self.now O) }
    {
        try_to_u64_array(&self.repr)
    }

    /// Returns the words of the set, of 64 bits each, the lowest first, without the members at or past `64 * O`. Words
    /// past the last word of the representation are 0.
    pub fn as_array_truncated<const O: usize>(&self) -> [u64; O]
        ensures { result ≡ words self.now O }
    {
        to_u64_array(&self.repr)
    }

    /// Returns the set with the bits of words of 64 bits, the lowest first. Every bit must be valid: it must be the bit
    /// of a variant. [`try_from_array`](EnumSet::try_from_array) tests this. Rust's call panics instead.
    pub fn from_array<const O: usize>(array: [u64; O]) -> EnumSet<T>
        requires valid { IsTrue (set.is_subset (bits_of array) (valid_bits T.elements)) }
        ensures { result ≡ bits_of array.entry }
    {
        exact(from_u64_array(array))
    }

    /// Returns the set with the bits of words of 64 bits, the lowest first, if every bit is valid (the bit of a
    /// variant), else `None`.
    #[tactic(auto, using(enumset_repr::specs::Laws::Algebra::is_subset_trans))]
    pub fn try_from_array<const O: usize>(array: [u64; O]) -> Option<EnumSet<T>>
        ensures valid { IsSome result
            ↔ IsTrue (set.is_subset (bits_of array.entry) (valid_bits T.elements)) }
        ensures value { IfSome result (λ s. s ≡ bits_of array.entry) }
    {
        validated_low(try_from_u64_array(array))
    }

    /// Returns the set with the valid bits of words of 64 bits, the lowest first: those that variants have.
    pub fn from_array_truncated<const O: usize>(array: [u64; O]) -> EnumSet<T>
        ensures { result ≡ set.intersection (bits_of array.entry) (valid_bits T.elements) }
    {
        truncated(from_u64_array(array))
    }

    /// Returns the set with the bits of words of 64 bits, the lowest first. Every bit must be valid, as for
    /// [`from_array`](EnumSet::from_array). Rust's call is unsafe.
    pub fn from_array_unchecked<const O: usize>(array: [u64; O]) -> EnumSet<T>
        requires valid { IsTrue (set.is_subset (bits_of array) (valid_bits T.elements)) }
        ensures { result ≡ bits_of array.entry }
    {
        Self::from_array(array)
    }
}
