//! Texts of the names of a set's elements, with commas between.

ghost use Rattle.std.specs.Prelude.{◌≡◌, true, not, Some, map, filter_map, find, option_map, position, string_bytes};
ghost use Rattle.std.specs.Prelude.{bytes_eq, IfOk, IfErr};
ghost use Rattle.std.specs.List.{list_all};
ghost use Rattle.enumset.specs.Sets as set;
ghost use Rattle.enumset.specs.Names.{name_of, names_of};
ghost use Rattle.example_set_facts.specs.Bits.{permission};
ghost use Rattle.example_set_facts.specs.Texts.{joined, title, all_titles, titled, is_title, parts};

use crate::permissions::Permission;
use enumset::{EnumSet, EnumSetNames};
use std::alloc::{AllocError, Global};

/// The title of a permission.
pub fn title_of(asked: Permission) -> &'static str
    ensures { result.now ≡ title (permission asked) }
{
    match asked {
        Permission::Read => "read",
        Permission::Comment => "comment",
        Permission::Write => "write",
        Permission::Share => "share",
        Permission::Delete => "delete",
    }
}

/// The permission with this title, if there is one.
pub fn of_title(text: &str) -> Option<Permission>
    ensures { option_map permission result ≡ position (λ t. bytes_eq t text.now) all_titles }
{
    match text {
        "read" => Some(Permission::Read),
        "comment" => Some(Permission::Comment),
        "write" => Some(Permission::Write),
        "share" => Some(Permission::Share),
        "delete" => Some(Permission::Delete),
        _ => None,
    }
}

/// The titles of permissions, in the order of their bits.
pub fn titles(alloc: Global, granted: EnumSet<Permission>) -> Result<String, AllocError>
    ensures { IfOk result (λ text. string_bytes text ≡ joined true (map title (set.ascending granted))) }
{
    let mut text = String::new(alloc);
    let mut is_first = true;
    for asked in granted {
        if !is_first {
            text.push_str(", ")?;
        }
        text.push_str(title_of(asked))?;
        is_first = false;
    }
    Ok(text)
}

/// The permissions whose titles a text lists, with a comma between each two, or the first text between commas that is
/// no title.
pub fn read_titles(text: &str) -> Result<EnumSet<Permission>, &str>
    ensures granted { IfOk result (λ granted. granted ≡ set.from_list (filter_map titled (parts text.now))) }
    ensures titles { IfOk result (λ _. list_all is_title (parts text.now) ≡ true) }
    ensures fault { IfErr result (λ part. find (λ t. not (is_title t)) (parts text.now) ≡ Some part.now) }
{
    let mut granted = EnumSet::new();
    for part in text.split(',') {
        granted.insert(of_title(part).ok_or(part)?);
    }
    Ok(granted)
}

/// The names of the elements, in the order of their bits, with a comma and a space between.
pub fn names_text<T: EnumSetNames>(
    alloc: Global,
    members: &EnumSet<T>,
) -> Result<String, AllocError>
    ensures { IfOk result (λ text. string_bytes text
        ≡ joined true (map (name_of (names_of T.elements T.names)) (set.ascending members.now))) }
{
    let mut text = String::new(alloc);
    let mut is_first = true;
    for element in members.iter() {
        if !is_first {
            text.push_str(", ")?;
        }
        text.push_str(element.name())?;
        is_first = false;
    }
    Ok(text)
}
