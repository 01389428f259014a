//! Reads the derives of an enum.

ghost use Rattle.std.specs.Prelude.{◌≡◌};
ghost use Rattle.enumset_derive.specs.Items.{names_element_type, is_element_type};

use crate::fault::{Fault, Reading, Reason};
use crate::items::{Attribute, Item, arguments_of};
use crate::plan::{Derive, Options};
use crate::report::Report;
use enumset_source::{Place, Token};

const DERIVE_ALONE: &str = "`cfg_attr` is not supported: write `#[derive(EnumSetType)]` without it";

const OWN_JSON: &str =
    "this set in JSON consists of the variants' names: remove this derive and use `rename` for \
    other names, or write the set as a number";

const OTHER_DISPLAY: &str =
    "`display` writes an `impl Display`, and so does this derive: remove one of them";

const OWN: &str = "EnumSetType";

/// Whether an item derives `EnumSetType`, perhaps under a condition.
pub(super) fn is_element_type(item: &Item) -> bool
    ensures { result ≡ is_element_type item.now }
{
    item.attributes
        .iter()
        .any(|attribute| names_element_type(attribute))
}

/// Whether an attribute derives `EnumSetType`, perhaps under a condition.
fn names_element_type(attribute: &Attribute) -> bool
    ensures { result ≡ names_element_type attribute.now }
{
    (attribute.is("derive") || attribute.is("cfg_attr")) && attribute.has(OWN)
}

/// Reports a derive of `EnumSetType` under a condition, and derives that write what the module writes in another way:
/// names in JSON, and `Display`.
pub(super) fn test_derives(
    report: &mut Report,
    attributes: &[Attribute],
    options: &Options,
) -> Reading {
    for attribute in attributes {
        let is_derive = attribute.is("derive");
        if !is_derive && names_element_type(attribute) {
            report.fault(Fault::at(&attribute.name, DERIVE_ALONE))?;
        }
        if is_derive || attribute.is("cfg_attr") {
            for word in &attribute.words {
                if options.are_named() && is_other_json(word.text) {
                    report.fault(Fault::at(word, OWN_JSON))?;
                }
                if is_derive && options.has_display && matches!(word.text, "Display" | "Error") {
                    report.fault(Fault::at(word, OTHER_DISPLAY))?;
                }
            }
        }
    }
    Ok(())
}

/// Whether this is the name of another derive of `serde`'s traits, such as `Serialize_repr`.
fn is_other_json(name: &str) -> bool {
    let begins = name.starts_with("Serialize") || name.starts_with("Deserialize");
    begins && !matches!(name, "Serialize" | "Deserialize")
}

/// The derives besides `EnumSetType`. Those that are not known are left out.
pub(super) fn read_derives<'a>(
    report: &mut Report,
    attributes: &[Attribute<'a, '_>],
) -> Reading<Vec<Derive<'a>>> {
    let mut derives: Vec<Derive> = Vec::new(report.alloc);
    for argument in arguments_of(report, attributes, "derive")? {
        let names = match argument {
            [root, names @ ..] if root.is("::") => names,
            names => names,
        };
        match read_derive(&derives, names) {
            Ok(Some(derive)) => derives.push(derive)?,
            Ok(None) => leave_out(report, names)?,
            Err(fault) => report.fault(fault)?,
        }
    }
    derives.retain(|derive| derive.name != OWN);
    Ok(derives)
}

/// Reads one path of a derive, which has the punctuation after it, if it is known. `given` are the derives before it.
fn read_derive<'a>(given: &[Derive], names: &[Token<'a>]) -> Result<Option<Derive<'a>>, Fault> {
    let (Some(last), Some(first)) = (last_name(names)?, names.first()) else {
        return Ok(None);
    };
    let is_rooted = names.len() <= 2 || last.is(OWN) || is_root(first.text);
    let Some(path) = path_of(last.text).filter(|_| is_rooted) else {
        return Ok(None);
    };
    match given.iter().find(|derive| derive.name == last.text) {
        Some(first) => Err(Reason::GivenTwice("derive", first.place).at(last.place)),
        None => Ok(Some(Derive {
            name: last.text,
            path,
            place: last.place,
        })),
    }
}

/// The last name of a path, before the punctuation after it.
fn last_name<'a>(names: &[Token<'a>]) -> Result<Option<Token<'a>>, Fault> {
    for pair in names.chunks(2) {
        match pair {
            [name, ..] if !name.is_ident() => return Err(Fault::unexpected(name, "a path or `)`")),
            [name, next] if next.is_punct(",)]}") => return Ok(Some(*name)),
            [_, next] if !next.is("::") => return Err(Fault::unexpected(next, "`,` or `)`")),
            _ => {}
        }
    }
    Ok(None)
}

/// Notes that a derive with this path is left out.
fn leave_out(report: &mut Report, names: &[Token]) -> Reading {
    let mut path = String::new(report.alloc);
    for name in names.iter().take_while(|name| !name.is_punct(",)]}")) {
        path.push_str(name.text)?;
    }
    let place = names.first().map_or(Place::BEGIN, |first| first.place);
    let text = format!(in report.alloc; "left out: #[derive({path})] has no meaning here")?;
    report.remark(place, text.as_str())
}

/// The path of a derive that is kept, as it is written, by the last name of its path in the source.
fn path_of(name: &str) -> Option<&str> {
    match name {
        "Serialize" => Some("serde::Serialize"),
        "Deserialize" => Some("serde::Deserialize"),
        "Error" => Some("thiserror::Error"),
        OWN | "Clone" | "Copy" | "PartialEq" | "Eq" | "PartialOrd" | "Ord" => Some(name),
        "Default" | "Hash" | "Debug" | "Drop" => Some(name),
        _ => None,
    }
}

/// Whether the path of a derive that is kept may begin with this name.
fn is_root(name: &str) -> bool {
    matches!(
        name,
        "std" | "core" | "fmt" | "cmp" | "hash" | "clone" | "marker" | "default"
    ) || matches!(name, "serde" | "thiserror" | "enumset")
}
