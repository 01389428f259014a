//! Laws of elements and their bits.

ghost use Rattle.std.specs.Prelude.{◌≡◌, ◌<◌, ◌-◌, ◌^◌, ◌↔◌, ℕ, IsTrue};
ghost use Rattle.std.specs.List.{range_with_len};
ghost use Rattle.enumset_repr.specs.BitSet.{is_in, contains, from_list, below, len, is_subset};
ghost use Rattle.enumset_repr.specs.Number.{bits, is_distinct};
ghost use Rattle.enumset_sets.specs.Elements.{valid_bits, one_past_greatest};

use enumset_sets::EnumSetType;
use enumset_sets::raw::valid_repr;

/// The valid bits are the bits in the list of the element type, which has each bit once, and the bits of `ALL_BITS`.
/// Valid bits are below the width of the representation.
pub fn valid_bits_listed<T: EnumSetType>()
    ensures listed { (bit : ℕ)
        → contains (valid_bits T.elements) bit ≡ is_in bit T.elements.bit_list }
    ensures each_once { IsTrue (is_distinct T.elements.bit_list) }
    ensures all_bits { T.Repr.members T.ALL_BITS ≡ valid_bits T.elements }
    ensures count { len (valid_bits T.elements) ≡ T.VARIANT_COUNT }
    ensures width { one_past_greatest (valid_bits T.elements) ≡ T.BIT_WIDTH }
    ensures within { IsTrue (is_subset (valid_bits T.elements) (below T.Repr.WIDTH)) }
{
    // The contract of `valid_repr` says that the valid bits are below the width.
    let _all = valid_repr::<T>();
}

/// The bit of a value is valid, and no other value has it. So `enum_from_u32` of `enum_into_u32` is the value, and `==`
/// compares the bits.
pub fn bit_and_back<T: EnumSetType>()
    ensures valid { (value : T) → IsTrue (contains (valid_bits T.elements) (T.elements.bit value)) }
    ensures within { (value : T) → T.elements.bit value < T.Repr.WIDTH }
    ensures back { (value other : T)
        → T.elements.bit value ≡ T.elements.bit other → value ≡ other }
    ensures equal { (value other : T)
        → IsTrue (T.PartialEq.eq value other) ↔ (T.elements.bit value ≡ T.elements.bit other) }
{
    valid_bits_listed::<T>();
}

/// The bits below a width are the bits of a number, and the numbers of a list: at 3 they are `bits 7`, and `from_list`
/// of 0, 1 and 2.
pub fn bits_below(width: u32)
    ensures number { bits (2 ^ width - 1) ≡ below width }
    ensures list { from_list (range_with_len 0 width) ≡ below width }
{}
