//! How many bits a set's number may have.

ghost use Rattle.std.specs.Prelude.{◌≡◌, ◌≤◌, ◌^◌, nat_lt};
ghost use Rattle.serde_json.specs.View.{view};
ghost use Rattle.enumset.specs.Json.{width_of, whole_number};

use super::fault::JsonFault;
use serde_json::Value;

/// The type of numbers that a set is written as or read from: 8, 16, 32 or 64 bits. Rust's `enumset` names it by
/// `serialize_repr`.
#[derive(Clone, Copy, Debug, PartialEq, Eq)]
pub enum JsonWidth {
    /// Bits 0 to 7.
    U8,
    /// Bits 0 to 15.
    U16,
    /// Bits 0 to 31.
    U32,
    /// Bits 0 to 63.
    U64,
}

impl JsonWidth {
    /// Returns how many bits the type has.
    pub fn bits(self) -> u32
        ensures bits { result ≡ width_of self }
        // This holds whatever the body does. Callers learn it.
        ensures narrow { width_of self ≤ 64 }
    {
        match self {
            JsonWidth::U8 => u8::BITS,
            JsonWidth::U16 => u16::BITS,
            JsonWidth::U32 => u32::BITS,
            JsonWidth::U64 => u64::BITS,
        }
    }
}

/// Returns whether a number has no bit at or past a width.
pub(super) fn fits(number: u64, width: u32) -> bool
    ensures { result ≡ nat_lt number (2 ^ width) }
{
    width >= u64::BITS || number >> width == 0
}

/// Returns the whole number that a value holds, or [`JsonFault::NotWhole`] of another number, or
/// [`JsonFault::NotANumber`] of any other value.
pub(super) fn whole_number(value: &Value) -> Result<u64, JsonFault>
    ensures { result ≡ whole_number (view value.now) }
{
    match value.as_u64() {
        Some(number) => Ok(number),
        None if value.is_number() => Err(JsonFault::NotWhole),
        None => Err(JsonFault::NotANumber),
    }
}
