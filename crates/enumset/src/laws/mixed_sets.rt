//! Laws of mixed sets.

ghost use Rattle.std.specs.Prelude.{◌≡◌, ℕ, IsTrue};
ghost use Rattle.std.specs.declared.cmp.Ordering.TheVariants.{Less};
ghost use Rattle.enumset_repr.specs.BitSet.{BitSet, empty, insert, remove, union};
ghost use Rattle.enumset_repr.specs.BitSet.{difference, is_subset, below};
ghost use Rattle.enumset_sets.specs.Elements.{valid_bits};
ghost use Rattle.enumset_mixed.specs.Mixed.{unknown_members};

use crate::laws::elements::bit_and_back;
use enumset_mixed::{MixedEnumSet, MixedValue};
use enumset_repr::InjectiveHash;
use enumset_sets::{EnumSetType, EnumSetTypeWithRepr};
use std::hash::Hash;

/// Unknown members stay if one element or a set of elements is inserted or removed. The complement has no unknown
/// member.
pub fn unknown_kept<T: EnumSetType>()
    ensures inserted { (s : BitSet) (element : T)
        → unknown_members (valid_bits T.elements) (insert s (T.elements.bit element))
        ≡ unknown_members (valid_bits T.elements) s }
    ensures removed { (s : BitSet) (element : T)
        → unknown_members (valid_bits T.elements) (remove s (T.elements.bit element))
        ≡ unknown_members (valid_bits T.elements) s }
    ensures all_inserted { (s elements : BitSet)
        → IsTrue (is_subset elements (valid_bits T.elements))
        → unknown_members (valid_bits T.elements) (union s elements)
        ≡ unknown_members (valid_bits T.elements) s }
    ensures all_removed { (s elements : BitSet)
        → IsTrue (is_subset elements (valid_bits T.elements))
        → unknown_members (valid_bits T.elements) (difference s elements)
        ≡ unknown_members (valid_bits T.elements) s }
    ensures complement { (s : BitSet)
        → unknown_members (valid_bits T.elements) (difference (valid_bits T.elements) s) ≡ empty }
{
    bit_and_back::<T>();
}

/// Every `Valid` is less than every `Invalid`, whatever their bits.
pub fn valid_before_invalid<T: EnumSetType + Ord>()
    ensures { (value : T) (bit : ℕ)
        → ⟦<MixedValue<T> as Ord>⟧.cmp (MixedValue.Valid value) (MixedValue.Invalid bit) ≡ Less }
{}

/// Mixed sets that feed a hasher the same data are equal, so sets that differ feed different data. This holds over each
/// representation that is [`InjectiveHash`], as each of this library is. The members of a mixed set are below the
/// width.
pub fn mixed_hash_is_injective<T: EnumSetTypeWithRepr>()
where
    T::Repr: InjectiveHash,
    ensures { (s t : BitSet) → IsTrue (is_subset s (below T.Repr.WIDTH))
        → IsTrue (is_subset t (below T.Repr.WIDTH))
        → ⟦<MixedEnumSet<T> as Hash>⟧.hash_input s ≡ ⟦<MixedEnumSet<T> as Hash>⟧.hash_input t → s ≡ t }
{}
