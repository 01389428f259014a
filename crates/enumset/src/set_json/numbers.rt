//! Sets as JSON numbers.

ghost use Rattle.std.specs.Prelude.{◌≡◌, ◌↔◌, IsOk, IfOk, IfErr, IsTrue};
ghost use Rattle.enumset_repr.specs.BitSet.{is_subset, below};
ghost use Rattle.enumset_repr.specs.Number.{number};
ghost use Rattle.serde_json.specs.View.{view};
ghost use Rattle.enumset.specs.Json.{width_of, number_value, set_of_number};
ghost use Rattle.enumset.specs.declared.set_json.fault.JsonFault.TheVariants.{TooWide};
ghost use Rattle.enumset_sets.specs.Elements.{valid_bits};

use super::fault::JsonFault;
use super::unknown::Unknown;
use super::width::{JsonWidth, fits, whole_number};
use enumset_sets::{EnumSet, EnumSetType};
use serde_json::Value;
use std::alloc::Global;

/// Returns the set's number, if each member is below the width, else [`JsonFault::TooWide`]. The call allocates
/// nothing: the allocator is there because every writer of a value takes one. Rust's `enumset` writes this form under
/// `serialize_repr = "u8"` to `"u64"`.
pub fn to_number<T: EnumSetType>(
    _alloc: Global,
    set: &EnumSet<T>,
    width: JsonWidth,
) -> Result<Value, JsonFault>
    ensures fits { IsOk result ↔ IsTrue (is_subset set.now (below (width_of width))) }
    ensures value { IfOk result (λ value. view value ≡ number_value (number set.now)) }
    ensures fault { IfErr result (λ fault. fault ≡ TooWide) }
{
    Ok(Value::from(number_of(set, width)?))
}

/// Returns the set's number, if each member is below the width, else [`JsonFault::TooWide`].
pub(super) fn number_of<T: EnumSetType>(
    set: &EnumSet<T>,
    width: JsonWidth,
) -> Result<u64, JsonFault>
    ensures fits { IsOk result ↔ IsTrue (is_subset set.now (below (width_of width))) }
    ensures value { IfOk result (λ n. n ≡ number set.now) }
    ensures fault { IfErr result (λ fault. fault ≡ TooWide) }
{
    let bits = width.bits();
    match set.try_as_u64() {
        Some(number) if fits(number, bits) => Ok(number),
        _ => Err(JsonFault::TooWide),
    }
}

/// Returns the set of the valid bits of a number below two to the width.
///
/// The faults are [`JsonFault::NotANumber`], [`JsonFault::NotWhole`], [`JsonFault::OutOfRange`] and, where unknown bits
/// are refused, [`JsonFault::UnknownBits`], tested in this order. The call allocates nothing. Rust's `enumset` reads
/// this form under `serialize_repr = "u8"` to `"u64"`.
pub fn from_number<T: EnumSetType>(
    value: &Value,
    width: JsonWidth,
    unknown: Unknown,
) -> Result<EnumSet<T>, JsonFault>
    ensures { result
        ≡ set_of_number (valid_bits T.elements) (width_of width) unknown (view value.now) }
{
    set_of(whole_number(value)?, width, unknown)
}

/// Returns the set of the valid bits of a number. The faults are [`JsonFault::OutOfRange`] if the number is not below
/// two to the width and, where unknown bits are refused, [`JsonFault::UnknownBits`].
pub(super) fn set_of<T: EnumSetType>(
    number: u64,
    width: JsonWidth,
    unknown: Unknown,
) -> Result<EnumSet<T>, JsonFault>
    ensures { result
        ≡ set_of_number (valid_bits T.elements) (width_of width) unknown (number_value number) }
{
    if !fits(number, width.bits()) {
        return Err(JsonFault::OutOfRange);
    }
    match unknown {
        Unknown::Drop => Ok(EnumSet::from_u64_truncated(number)),
        Unknown::Refuse => EnumSet::try_from_u64(number).ok_or(JsonFault::UnknownBits),
    }
}
