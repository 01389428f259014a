//! Strings that are lists of names without escapes, written and read without a tree of values.

ghost use Rattle.std.specs.Prelude.{◌≡◌, ◌==◌, ◌++◌, if◌then◌else◌, IfSome, IsSome, OnOk, length, string_bytes};
ghost use Rattle.enumset.specs.JsonNames.{list_value, set_of_list};
ghost use Rattle.enumset.specs.JsonPlain.{IsPlainList, IsTextIfPlain};
ghost use Rattle.enumset.specs.JsonReads.{value_read, IsResult};
ghost use Rattle.enumset.specs.Names.{names_of};

use super::fault::JsonFault;
use super::names_read::NamesRead;
use super::scan::{after_byte, are_spaces, is_plain, split_string};
use super::unknown::Unknown;
use crate::names::EnumSetNames;
use enumset_sets::EnumSet;
use std::alloc::{AllocError, Global};

/// A string of names without escapes, or `None` if a name needs an escape.
pub(super) type TextIfPlain = Result<Option<String>, AllocError>;

/// Returns the list of the members' names as a string, or `None` if a name needs an escape.
pub(super) fn write_plain_list<T: EnumSetNames>(alloc: Global, set: &EnumSet<T>) -> TextIfPlain
    ensures { IsTextIfPlain (list_value (names_of T.elements T.names) set.now) result }
{
    // Sixteen bytes for each name: two quotes, a comma, and up to thirteen of its own. Longer names need more room.
    let mut text = String::with_capacity(alloc, set.len().saturating_mul(16))?;
    for element in set.iter() {
        let name = element.name();
        if !is_plain(name) {
            return Ok(None);
        }
        push_either(&mut text, "[\"", "\",\"")?;
        text.push_str(name)?;
    }
    push_either(&mut text, "[]", "\"]")?;
    Ok(Some(text))
}

/// Appends `first` to an empty string, and `later` to any other. The function is inlined so that each piece has a known
/// length.
#[inline(always)]
pub(super) fn push_either(text: &mut String, first: &str, later: &str) -> Result<(), AllocError>
    ensures { OnOk result (string_bytes text.new
        ≡ string_bytes text.old ++ (if length (string_bytes text.old) == 0 then first.now else later.now)) }
{
    if text.is_empty() {
        text.push_str(first)
    } else {
        text.push_str(later)
    }
}

/// Returns the result of reading a list of plain strings, with spaces anywhere between its tokens, or `None` for any
/// other string.
pub(super) fn read_plain_list<T: EnumSetNames>(
    text: &str,
    unknown: Unknown,
) -> Option<Result<EnumSet<T>, JsonFault>>
    ensures set { IfSome result (λ set.
        IsResult (value_read (set_of_list (names_of T.elements T.names) unknown) text.now) set) }
    ensures plain { IsPlainList text.now → IsSome result }
{
    let rest = after_byte(text.as_bytes(), b'[')?;
    if let Some(end) = after_byte(rest, b']') {
        return are_spaces(end).then_some(Ok(EnumSet::new()));
    }
    let mut left = after_byte(rest, b'"')?;
    let mut names = NamesRead::new();
    for place in 0..text.len() {
        let (name, rest) = split_string(left)?;
        names.take(name, true, place);
        if let Some(end) = after_byte(rest, b']') {
            return are_spaces(end).then_some(names.into_set(unknown));
        }
        left = after_byte(after_byte(rest, b',')?, b'"')?;
    }
    None
}
