//! Mixed sets to and from strings of JSON, as numbers and as words.

ghost use Rattle.std.specs.Prelude.{◌≡◌, ◌≤◌, Some, IfOk, IfErr, string_bytes, decimal};
ghost use Rattle.enumset_repr.specs.Number.{number};
ghost use Rattle.enumset_repr.specs.Words.{words};
ghost use Rattle.serde_json.specs.Read.{read};
ghost use Rattle.serde_json.specs.Written.{compact_text};
ghost use Rattle.enumset.specs.Json.{number_value, words_value};
ghost use Rattle.enumset.specs.Json.{mixed_set_of_number, mixed_set_of_words};
ghost use Rattle.enumset.specs.JsonPlain.{IsPlainNumber, IsPlainWords};
ghost use Rattle.enumset.specs.JsonReads.{value_read, IsResult, IsReadOf};
ghost use Rattle.enumset.specs.declared.set_json.fault.JsonFault.TheVariants.{OutOfMemory};

use super::fault::JsonFault;
use super::mixed::{
    kept_below, mixed_from_number, mixed_from_words, mixed_number_of, mixed_set_of,
};
use super::plain_numbers::{read_plain_number, write_plain_number};
use super::plain_words::{read_plain_words, write_plain_words};
use super::unknown::Unknown;
use enumset_mixed::MixedEnumSet;
use enumset_repr::EnumSetTypeRepr;
use enumset_sets::{EnumSetType, EnumSetTypeWithRepr};
use serde_json::Value;
use std::alloc::Global;

/// Writes the digits of the set's number, unknown bits included. The representation may have 64 bits at most. The only
/// fault is [`JsonFault::OutOfMemory`]. `serde_json` writes this string for a `MixedEnumSet` of Rust's `enumset`.
pub fn mixed_to_number_text<T: EnumSetTypeWithRepr>(
    alloc: Global,
    set: &MixedEnumSet<T>,
) -> Result<String, JsonFault>
    requires narrow { T.Repr.WIDTH ≤ 64 }
    ensures text { IfOk result (λ text. string_bytes text ≡ decimal (number set.now)) }
    ensures reads { IfOk result (λ text.
        read (string_bytes text) ≡ Some (number_value (number set.now))) }
    ensures fault { IfErr result (λ fault. fault ≡ OutOfMemory) }
{
    Ok(write_plain_number(alloc, mixed_number_of(set))?)
}

/// Writes the set's words of 64 bits as an array without spaces, the lowest first, as many as its representation has,
/// unknown bits included. The only fault is [`JsonFault::OutOfMemory`]. Rust's `enumset` writes a number of 128 bits
/// instead.
pub fn mixed_to_words_text<T: EnumSetTypeWithRepr>(
    alloc: Global,
    set: &MixedEnumSet<T>,
) -> Result<String, JsonFault>
    ensures text { IfOk result (λ text. string_bytes text
        ≡ compact_text (words_value (words set.now T.Repr.PREFERRED_ARRAY_LEN))) }
    ensures reads { IfOk result (λ text. read (string_bytes text)
        ≡ Some (words_value (words set.now T.Repr.PREFERRED_ARRAY_LEN))) }
    ensures fault { IfErr result (λ fault. fault ≡ OutOfMemory) }
{
    Ok(write_plain_words(alloc, &set.as_repr())?)
}

/// Reads a set from a string of JSON that is a number, as [`mixed_from_number`] reads it from the number. The
/// representation may have 64 bits at most. The faults are those of [`mixed_from_number`] and two more:
/// [`JsonFault::NotJson`] if the string is not JSON, and [`JsonFault::OutOfMemory`], since strings other than whole
/// numbers below 2^64 are parsed in memory.
pub fn mixed_from_number_text<T: EnumSetTypeWithRepr>(
    alloc: Global,
    text: &str,
) -> Result<MixedEnumSet<T>, JsonFault>
    requires narrow { T.Repr.WIDTH ≤ 64 }
    ensures read { IsReadOf (mixed_set_of_number T.Repr.WIDTH) text.now result }
    ensures plain { IsPlainNumber text.now
        → IsResult (value_read (mixed_set_of_number T.Repr.WIDTH) text.now) result }
{
    match read_plain_number(text) {
        Some(number) => mixed_set_of(number),
        None => mixed_from_number(&Value::from_str(alloc, text)?),
    }
}

/// Reads a set from a string of JSON that is an array of words of 64 bits, as [`mixed_from_words`] reads it from the
/// array. The faults are those of [`mixed_from_words`] and two more: [`JsonFault::NotJson`] if the string is not JSON,
/// and [`JsonFault::OutOfMemory`], since strings other than arrays of whole numbers below 2^64 are parsed in memory.
pub fn mixed_from_words_text<T: EnumSetTypeWithRepr>(
    alloc: Global,
    text: &str,
    past: Unknown,
) -> Result<MixedEnumSet<T>, JsonFault>
    ensures read { IsReadOf (mixed_set_of_words T.Repr.WIDTH past) text.now result }
    ensures plain { IsPlainWords text.now
        → IsResult (value_read (mixed_set_of_words T.Repr.WIDTH past) text.now) result }
{
    match read_plain_words(text) {
        Some(words) => kept_below(words, past),
        None => mixed_from_words(&Value::from_str(alloc, text)?, past),
    }
}
