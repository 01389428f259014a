//! Sets to and from slices of words.

ghost use Rattle.std.specs.Prelude.{◌≡◌, ◌<◌, ◌↔◌, ◌*◌, IsTrue, IsSome, IfSome, None, length};
ghost use Rattle.enumset_repr.specs.BitSet as set;
ghost use Rattle.enumset_repr.specs.Words.{words, bits_of};
ghost use Rattle.enumset_sets.specs.Elements.{valid_bits};

use crate::element::EnumSetType;
use crate::enum_set::EnumSet;
use crate::raw::{exact, truncated, validated_low};
use enumset_repr::EnumSetTypeRepr;

#[tactic(auto, using(crate::specs::Laws::Conversions::conversions))]
impl<T: EnumSetType> EnumSet<T> {
    /// Writes the words of the set to a slice, of 64 bits each, the lowest first. Words past the last word of the
    /// representation are 0. Every member must be below 64 times the length of the slice, which always holds if the
    /// representation has no more bits. [`try_copy_into_slice`](EnumSet::try_copy_into_slice) tests this. Rust's call
    /// panics instead.
    pub fn copy_into_slice(&self, slice: &mut [u64])
        requires fits { 64 * length slice.old < T.Repr.WIDTH
            → IsTrue (set.is_subset self.now (set.below (64 * length slice.old))) }
        ensures { slice.new ≡ words self.now (length slice.old) }
    {
        self.copy_into_slice_truncated(slice);
    }

    /// Writes the words of the set to a slice, of 64 bits each, the lowest first, if every member is below 64 times the
    /// length of the slice. Otherwise returns `None` and leaves the slice unchanged. Words past the last word of the
    /// representation are 0.
    pub fn try_copy_into_slice(&self, slice: &mut [u64]) -> Option<()>
        ensures fits { IsSome result
            ↔ IsTrue (set.is_subset self.now (set.below (64 * length slice.old))) }
        ensures words { IsSome result → slice.new ≡ words self.now (length slice.old) }
        ensures unchanged { result ≡ None → slice.new ≡ slice.old }
    {
        self.repr.try_to_u64_slice(slice)
    }

    /// Writes the words of the set to a slice, of 64 bits each, the lowest first, without the members at or past 64
    /// times the length of the slice. Words past the last word of the representation are 0.
    pub fn copy_into_slice_truncated(&self, slice: &mut [u64])
        ensures { slice.new ≡ words self.now (length slice.old) }
    {
        self.repr.to_u64_slice(slice);
    }

    /// Returns the set with the bits of words of 64 bits, the lowest first. Every bit must be valid: it must be the bit
    /// of a variant. [`try_from_slice`](EnumSet::try_from_slice) tests this. Rust's call panics instead.
    pub fn from_slice(slice: &[u64]) -> EnumSet<T>
        requires valid { IsTrue (set.is_subset (bits_of slice.now) (valid_bits T.elements)) }
        ensures { result ≡ bits_of slice.now }
    {
        exact(T::Repr::from_u64_slice(slice))
    }

    /// Returns the set with the bits of words of 64 bits, the lowest first, if every bit is valid (the bit of a
    /// variant), else `None`.
    #[tactic(auto, using(enumset_repr::specs::Laws::Algebra::is_subset_trans))]
    pub fn try_from_slice(slice: &[u64]) -> Option<EnumSet<T>>
        ensures valid { IsSome result
            ↔ IsTrue (set.is_subset (bits_of slice.now) (valid_bits T.elements)) }
        ensures value { IfSome result (λ s. s ≡ bits_of slice.now) }
    {
        validated_low(T::Repr::try_from_u64_slice(slice))
    }

    /// Returns the set with the valid bits of words of 64 bits, the lowest first: those that variants have.
    pub fn from_slice_truncated(slice: &[u64]) -> EnumSet<T>
        ensures { result ≡ set.intersection (bits_of slice.now) (valid_bits T.elements) }
    {
        truncated(T::Repr::from_u64_slice(slice))
    }

    /// Returns the set with the bits of words of 64 bits, the lowest first. Every bit must be valid, as for
    /// [`from_slice`](EnumSet::from_slice). Rust's call is unsafe.
    pub fn from_slice_unchecked(slice: &[u64]) -> EnumSet<T>
        requires valid { IsTrue (set.is_subset (bits_of slice.now) (valid_bits T.elements)) }
        ensures { result ≡ bits_of slice.now }
    {
        Self::from_slice(slice)
    }
}
