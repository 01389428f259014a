//! Sets that are sent as numbers.

ghost use Rattle.std.specs.Prelude.{◌≡◌, ◌↔◌, true, false, IsTrue, IsSome, IfSome};
ghost use Rattle.enumset.specs.Sets as set;
ghost use Rattle.enumset.specs.Sets.{number, bits, valid_bits};

use enumset::{EnumSet, EnumSetType, laws};

/// The granted set as a byte, or the greatest byte if the set does not fit one.
pub fn as_byte<T: EnumSetType>(granted: &EnumSet<T>) -> u8
    ensures fits { set.is_subset granted.now (set.below u8.BITS) ≡ true → result ≡ number granted.now }
    ensures too_wide { set.is_subset granted.now (set.below u8.BITS) ≡ false → result ≡ u8.MAX }
{
    match granted.try_as_u8() {
        Some(_) => granted.as_u8(),
        None => u8::MAX,
    }
}

/// The set that a byte grants, or the empty set if one of its bits is not valid.
pub fn granted_by<T: EnumSetType>(byte: u8) -> EnumSet<T>
    ensures valid { set.is_subset (bits byte) (valid_bits T.elements) ≡ true → result ≡ bits byte }
    ensures unknown { set.is_subset (bits byte) (valid_bits T.elements) ≡ false → result ≡ set.empty }
{
    match EnumSet::<T>::try_from_u8(byte) {
        Some(_) => EnumSet::from_u8(byte),
        None => EnumSet::new(),
    }
}

/// The set that a byte grants. Every bit of it must be valid.
pub fn granted_by_valid<T: EnumSetType>(byte: u8) -> EnumSet<T>
    requires { IsTrue (set.is_subset (bits byte) (valid_bits T.elements)) }
    ensures { result ≡ bits byte }
{
    EnumSet::from_u8(byte)
}

/// Sends the granted set as a byte, and reads it again.
pub fn sent_and_read<T: EnumSetType>(granted: &EnumSet<T>) -> Option<EnumSet<T>>
    ensures fits { IsSome result ↔ IsTrue (set.is_subset granted.now (set.below u8.BITS)) }
    ensures same { IfSome result (λ read. read ≡ granted.now) }
{
    laws::number_and_back(granted);
    EnumSet::try_from_u8(granted.try_as_u8()?)
}
