//! Sets to and from strings of JSON, in each form.

ghost use Rattle.std.specs.Prelude.{◌≡◌, ◌↔◌, ◌⊎◌, false, Some, Err, IfOk, IfErr, string_bytes};
ghost use Rattle.std.specs.Prelude.{decimal};
ghost use Rattle.enumset_repr.specs.BitSet.{below, is_subset};
ghost use Rattle.enumset_repr.specs.Number.{number};
ghost use Rattle.enumset_repr.specs.Words.{words};
ghost use Rattle.serde_json.specs.Read.{read};
ghost use Rattle.serde_json.specs.Written.{compact_text};
ghost use Rattle.enumset.specs.Json.{width_of, number_value, words_value};
ghost use Rattle.enumset.specs.Json.{set_of_number, set_of_words};
ghost use Rattle.enumset.specs.JsonNames.{list_value, map_value, set_of_list, set_of_map};
ghost use Rattle.enumset.specs.JsonPlain.{IsPlainNumber, IsPlainWords, IsPlainList, IsPlainMap};
ghost use Rattle.enumset.specs.JsonReads.{value_read, IsResult, IsReadOf};
ghost use Rattle.enumset.specs.Names.{names_of};
ghost use Rattle.enumset.specs.declared.set_json.fault.JsonFault.TheVariants.{TooWide, OutOfMemory};
ghost use Rattle.enumset_sets.specs.Elements.{valid_bits};

use super::fault::JsonFault;
use super::lists::{from_list, to_list};
use super::maps::{from_map, to_map};
use super::numbers::{from_number, number_of, set_of};
use super::plain_lists::{read_plain_list, write_plain_list};
use super::plain_maps::{read_plain_map, write_plain_map};
use super::plain_numbers::{read_plain_number, write_plain_number};
use super::plain_words::{read_plain_words, write_plain_words};
use super::unknown::Unknown;
use super::width::JsonWidth;
use super::words::{accepted, from_words};
use crate::names::EnumSetNames;
use enumset_sets::{EnumSet, EnumSetType, raw};
use serde_json::Value;
use std::alloc::Global;

/// Writes the digits of the set's number, if each member is below the width, else [`JsonFault::TooWide`]. The other
/// fault is [`JsonFault::OutOfMemory`]. `serde_json` writes this string for a set of Rust's `enumset` under
/// `serialize_repr = "u8"` to `"u64"`.
pub fn to_number_text<T: EnumSetType>(
    alloc: Global,
    set: &EnumSet<T>,
    width: JsonWidth,
) -> Result<String, JsonFault>
    ensures text { IfOk result (λ text. string_bytes text ≡ decimal (number set.now)) }
    ensures reads { IfOk result (λ text.
        read (string_bytes text) ≡ Some (number_value (number set.now))) }
    ensures too_wide { (result ≡ Err TooWide) ↔ (is_subset set.now (below (width_of width)) ≡ false) }
    ensures fault { IfErr result (λ fault. (fault ≡ TooWide) ⊎ (fault ≡ OutOfMemory)) }
{
    Ok(write_plain_number(alloc, number_of(set, width)?)?)
}

/// Writes the set's words of 64 bits as an array without spaces, the lowest first, as many as its representation has.
/// The only fault is [`JsonFault::OutOfMemory`]. `serde_json` writes this string for a set of Rust's `enumset` under
/// `serialize_repr = "array"`.
pub fn to_words_text<T: EnumSetType>(alloc: Global, set: &EnumSet<T>) -> Result<String, JsonFault>
    ensures text { IfOk result (λ text. string_bytes text
        ≡ compact_text (words_value (words set.now T.Repr.PREFERRED_ARRAY_LEN))) }
    ensures reads { IfOk result (λ text. read (string_bytes text)
        ≡ Some (words_value (words set.now T.Repr.PREFERRED_ARRAY_LEN))) }
    ensures fault { IfErr result (λ fault. fault ≡ OutOfMemory) }
{
    Ok(write_plain_words(alloc, &raw::get(set.copied()))?)
}

/// Writes the names of the set's members as an array without spaces, in ascending order of their bits, such as
/// `["Read","Share"]`. The only fault is [`JsonFault::OutOfMemory`]. `serde_json` writes this string for a set of
/// Rust's `enumset` under `serialize_repr = "list"`.
pub fn to_list_text<T: EnumSetNames>(alloc: Global, set: &EnumSet<T>) -> Result<String, JsonFault>
    ensures text { IfOk result (λ text. string_bytes text
        ≡ compact_text (list_value (names_of T.elements T.names) set.now)) }
    ensures reads { IfOk result (λ text. read (string_bytes text)
        ≡ Some (list_value (names_of T.elements T.names) set.now)) }
    ensures fault { IfErr result (λ fault. fault ≡ OutOfMemory) }
{
    match write_plain_list(alloc, set)? {
        Some(text) => Ok(text),
        None => Ok(to_list(alloc, set)?.to_string(alloc)?),
    }
}

/// Writes an object without spaces that has the name of each of the set's members with `true`, in the order of the
/// names' bytes, such as `{"Read":true,"Share":true}`. The only fault is [`JsonFault::OutOfMemory`]. `serde_json`
/// writes this string for a set of Rust's `enumset` under `serialize_repr = "map"`, but in the order of bits.
pub fn to_map_text<T: EnumSetNames>(alloc: Global, set: &EnumSet<T>) -> Result<String, JsonFault>
    ensures text { IfOk result (λ text. string_bytes text
        ≡ compact_text (map_value (names_of T.elements T.names) set.now)) }
    ensures reads { IfOk result (λ text. read (string_bytes text)
        ≡ Some (map_value (names_of T.elements T.names) set.now)) }
    ensures fault { IfErr result (λ fault. fault ≡ OutOfMemory) }
{
    match write_plain_map(alloc, set)? {
        Some(text) => Ok(text),
        None => Ok(to_map(alloc, set)?.to_string(alloc)?),
    }
}

/// Reads a set from a string of JSON that is a number, as [`from_number`] reads it from the number. The faults are
/// those of [`from_number`] and two more: [`JsonFault::NotJson`] if the string is not JSON, and
/// [`JsonFault::OutOfMemory`], since strings other than whole numbers below 2^64 are parsed in memory.
pub fn from_number_text<T: EnumSetType>(
    alloc: Global,
    text: &str,
    width: JsonWidth,
    unknown: Unknown,
) -> Result<EnumSet<T>, JsonFault>
    ensures read { IsReadOf (set_of_number (valid_bits T.elements) (width_of width) unknown) text.now result }
    ensures plain { IsPlainNumber text.now
        → IsResult (value_read (set_of_number (valid_bits T.elements) (width_of width) unknown) text.now) result }
{
    match read_plain_number(text) {
        Some(number) => set_of(number, width, unknown),
        None => from_number(&Value::from_str(alloc, text)?, width, unknown),
    }
}

/// Reads a set from a string of JSON that is an array of words of 64 bits, as [`from_words`] reads it from the array.
/// The faults are those of [`from_words`] and two more: [`JsonFault::NotJson`] if the string is not JSON, and
/// [`JsonFault::OutOfMemory`], since strings other than arrays of whole numbers below 2^64 are parsed in memory.
pub fn from_words_text<T: EnumSetType>(
    alloc: Global,
    text: &str,
    unknown: Unknown,
) -> Result<EnumSet<T>, JsonFault>
    ensures read { IsReadOf (set_of_words (valid_bits T.elements) unknown) text.now result }
    ensures plain { IsPlainWords text.now
        → IsResult (value_read (set_of_words (valid_bits T.elements) unknown) text.now) result }
{
    match read_plain_words(text) {
        Some(words) => accepted(words, unknown),
        None => from_words(&Value::from_str(alloc, text)?, unknown),
    }
}

/// Reads a set from a string of JSON that is an array of names, as [`from_list`] reads it from the array. The faults
/// are those of [`from_list`] and two more: [`JsonFault::NotJson`] if the string is not JSON, and
/// [`JsonFault::OutOfMemory`], since strings other than arrays of strings without escapes are parsed in memory.
pub fn from_list_text<T: EnumSetNames>(
    alloc: Global,
    text: &str,
    unknown: Unknown,
) -> Result<EnumSet<T>, JsonFault>
    ensures read { IsReadOf (set_of_list (names_of T.elements T.names) unknown) text.now result }
    ensures plain { IsPlainList text.now
        → IsResult (value_read (set_of_list (names_of T.elements T.names) unknown) text.now) result }
{
    match read_plain_list(text, unknown) {
        Some(set) => set,
        None => from_list(&Value::from_str(alloc, text)?, unknown),
    }
}

/// Reads a set from a string of JSON that is an object of names, as [`from_map`] reads it from the object. The faults
/// are those of [`from_map`] and two more: [`JsonFault::NotJson`] if the string is not JSON, and
/// [`JsonFault::OutOfMemory`], since strings other than objects with known names, each once and without escapes, are
/// parsed in memory.
pub fn from_map_text<T: EnumSetNames>(
    alloc: Global,
    text: &str,
    unknown: Unknown,
) -> Result<EnumSet<T>, JsonFault>
    ensures read { IsReadOf (set_of_map (names_of T.elements T.names) unknown) text.now result }
    ensures plain { IsPlainMap (names_of T.elements T.names) text.now
        → IsResult (value_read (set_of_map (names_of T.elements T.names) unknown) text.now) result }
{
    match read_plain_map(text) {
        Some(set) => Ok(set),
        None => from_map(&Value::from_str(alloc, text)?, unknown),
    }
}
