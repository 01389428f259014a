//! Sets to and from arrays of words of 64 bits, of any length, over every representation.
//!
//! In Rust's `enumset` these functions are calls of `EnumSetTypeRepr`, by the same names.

ghost use Rattle.std.specs.Prelude.{◌≡◌, ◌↔◌, ◌*◌, IsTrue, IsSome, IfSome};
ghost use Rattle.enumset_repr.specs.BitSet as set;
ghost use Rattle.enumset_repr.specs.Words.{words, bits_of};

use crate::repr::EnumSetTypeRepr;

/// Returns the words of a set, the lowest first, and 0 past the last word of the representation. Members at or past
/// `64 * O` are left out. The function mirrors Rust's `EnumSetTypeRepr::to_u64_array`.
pub fn to_u64_array<R: EnumSetTypeRepr, const O: usize>(repr: &R) -> [u64; O]
    ensures { result ≡ words (R.members repr.now) O }
{
    let mut out = [0; O];
    repr.to_u64_slice(&mut out);
    out
}

/// Returns the words of a set, the lowest first, if every member is below `64 * O`, else `None`. The function mirrors
/// Rust's `EnumSetTypeRepr::try_to_u64_array`.
pub fn try_to_u64_array<R: EnumSetTypeRepr, const O: usize>(repr: &R) -> Option<[u64; O]>
    ensures fits { IsSome result
        ↔ IsTrue (set.is_subset (R.members repr.now) (set.below (64 * O))) }
    ensures value { IfSome result (λ out. out ≡ words (R.members repr.now) O) }
{
    let mut out = [0; O];
    repr.try_to_u64_slice(&mut out)?;
    Some(out)
}

/// Returns the set with the bits of a list of words, the lowest first. Bits at or past the width are left out. The
/// function mirrors Rust's `EnumSetTypeRepr::from_u64_array`.
pub fn from_u64_array<R: EnumSetTypeRepr, const O: usize>(v: [u64; O]) -> R
    ensures { R.members result ≡ set.low (bits_of v.entry) R.WIDTH }
{
    R::from_u64_slice(&v)
}

/// Returns the set with the bits of a list of words, the lowest first, if all these bits are below the width, else
/// `None`. The function mirrors Rust's `EnumSetTypeRepr::try_from_u64_array`.
pub fn try_from_u64_array<R: EnumSetTypeRepr, const O: usize>(v: [u64; O]) -> Option<R>
    ensures fits { IsSome result ↔ IsTrue (set.is_subset (bits_of v.entry) (set.below R.WIDTH)) }
    ensures value { IfSome result (λ s. R.members s ≡ bits_of v.entry) }
{
    R::try_from_u64_slice(&v)
}
