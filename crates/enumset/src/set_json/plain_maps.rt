//! Strings that are maps of names without escapes, written and read without a tree of values.

ghost use Rattle.std.specs.Prelude.{◌≡◌, ◌++◌, ℕ, Bool, List, Ok, IfSome, IsSome};
ghost use Rattle.std.specs.Option.{IsSomeAnd};
ghost use Rattle.serde_json.specs.Data.{boolean};
ghost use Rattle.serde_json.specs.Written.{compact_text};
ghost use Rattle.enumset_repr.specs.BitSet.{BitSet};
ghost use Rattle.enumset.specs.JsonNames.{map_value, set_of_map};
ghost use Rattle.enumset.specs.JsonPlain.{AreMembers, IsPlainMap, StartsWithMember, IsTextIfPlain};
ghost use Rattle.enumset.specs.JsonReads.{value_read, IsResult};
ghost use Rattle.enumset.specs.Names.{Names, names_of};
ghost use Rattle.enumset.specs.declared.set_json.unknown.Unknown.{Unknown};

use super::plain_lists::{TextIfPlain, push_either};
use super::scan::{after_byte, are_spaces, is_plain, split_spaces, split_string};
use crate::names::{EnumSetNames, find_value};
use enumset_sets::EnumSet;
use std::alloc::Global;

/// Returns the map of the members' names as a string, or `None` if a name needs an escape.
pub(super) fn write_plain_map<T: EnumSetNames>(alloc: Global, set: &EnumSet<T>) -> TextIfPlain
    ensures { IsTextIfPlain (map_value (names_of T.elements T.names) set.now) result }
{
    let mut names = Vec::with_capacity(alloc, set.len())?;
    for element in set.iter() {
        names.push(element.name())?;
    }
    names.sort_unstable();
    text_of_names(alloc, &names)
}

/// Returns the map of sorted names as a string, or `None` if a name needs an escape.
fn text_of_names(alloc: Global, names: &[&str]) -> TextIfPlain
    ensures { (all : Names) (set : BitSet) → AreMembers all set names.now → IsTextIfPlain (map_value all set) result }
{
    // One allocation is enough: each name has eight bytes beside its own, two quotes, a colon, `true` and a comma.
    let bytes = names.iter().fold(2usize, |bytes, name| {
        bytes.saturating_add(name.len()).saturating_add(8)
    });
    let mut text = String::with_capacity(alloc, bytes)?;
    for name in names.iter() {
        if !is_plain(name) {
            return Ok(None);
        }
        push_either(&mut text, "{\"", "\":true,\"")?;
        text.push_str(name)?;
    }
    push_either(&mut text, "{}", "\":true}")?;
    Ok(Some(text))
}

/// Returns the boolean at the front and what follows it, or `None` if no boolean is there.
#[inline(always)]
fn split_boolean(bytes: &[u8]) -> Option<(bool, &[u8])>
    ensures whole { IfSome result (λ parts. bytes.now ≡ compact_text (boolean parts.0) ++ parts.1.now) }
    ensures found { (b : Bool) → (rest : List ℕ) → bytes.now ≡ compact_text (boolean b) ++ rest
        → IsSomeAnd result (λ parts. (parts.0 ≡ b) × (parts.1.now ≡ rest)) }
{
    match bytes {
        [b't', b'r', b'u', b'e', rest @ ..] => Some((true, rest)),
        [b'f', b'a', b'l', b's', b'e', rest @ ..] => Some((false, rest)),
        _ => None,
    }
}

/// Returns the name and the boolean of a member after its opening quote, and what follows them, or `None` if no plain
/// member is there.
#[inline(always)]
fn split_member(bytes: &[u8]) -> Option<(&[u8], bool, &[u8])>
    ensures starts { IfSome result (λ parts. StartsWithMember bytes.now parts.0.now parts.1 parts.2.now) }
    ensures found { (name : List ℕ) → (b : Bool) → (rest : List ℕ) → StartsWithMember bytes.now name b rest
        → IsSomeAnd result (λ parts. (parts.0.now ≡ name) × (parts.1 ≡ b) × (parts.2.now ≡ rest)) }
{
    let (name, rest) = split_string(bytes)?;
    let (_, value) = split_spaces(after_byte(rest, b':')?);
    let (is_member, rest) = split_boolean(value)?;
    Some((name, is_member, rest))
}

/// Returns the set of a map of plain names that are all known, each once, or `None` for any other string.
pub(super) fn read_plain_map<T: EnumSetNames>(text: &str) -> Option<EnumSet<T>>
    ensures set { IfSome result (λ set. (unknown : Unknown)
        → IsResult (value_read (set_of_map (names_of T.elements T.names) unknown) text.now) (Ok set)) }
    ensures plain { IsPlainMap (names_of T.elements T.names) text.now → IsSome result }
{
    let members = after_byte(text.as_bytes(), b'{')?;
    if let Some(end) = after_byte(members, b'}') {
        return are_spaces(end).then_some(EnumSet::new());
    }
    let mut left = after_byte(members, b'"')?;
    let mut seen = EnumSet::new();
    let mut set = EnumSet::new();
    let mut next = 0;
    // Each iteration reads at least one byte. The bound only shows that the loop ends.
    for _ in 0..text.len() {
        let (name, is_member, rest) = split_member(left)?;
        let element: T = find_value(name, &mut next)?;
        if !seen.insert(element) {
            return None;
        }
        if is_member {
            set.insert(element);
        }
        if let Some(end) = after_byte(rest, b'}') {
            return are_spaces(end).then_some(set);
        }
        left = after_byte(after_byte(rest, b',')?, b'"')?;
    }
    None
}
