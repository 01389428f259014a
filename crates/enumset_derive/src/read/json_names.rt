//! Reads the names of variants in JSON from attributes of `serde`.

ghost use Rattle.std.specs.Prelude.{IfOk, string_bytes};
ghost use Rattle.enumset_derive.specs.JsonNames.{IsJsonName, AreJsonNames};

use super::options::value_of;
use crate::fault::{Fault, Reading, Reason};
use crate::items::{Attribute, arguments_of};
use crate::plan::{Rename, Variant};
use crate::report::Report;
use enumset_source::{Style, Token, style_of, styled};
use std::alloc::{AllocError, Global};
use std::collections::BTreeMap;

const OTHER: &str = "only `rename_all = \"..\"` on the enum and `rename = \"..\"` on a variant \
    can change names in JSON";

const WRONG_STYLE: &str =
    "`rename_all` must be \"lowercase\", \"UPPERCASE\", \"PascalCase\", \"camelCase\", \
    \"snake_case\", \"SCREAMING_SNAKE_CASE\", \"kebab-case\" or \"SCREAMING-KEBAB-CASE\"";

const NOT_PLAIN: &str = "a name in JSON must be printable ASCII without `\"` and `\\`";

/// The style that `rename_all` gives to the names of an enum, or `None` if it could not be read.
pub(super) fn read_style(report: &mut Report, attributes: &[Attribute]) -> Reading<Option<Style>> {
    let (text, place) = match read_name(report, attributes, false)? {
        Rename::Given(text, place) => (text, place),
        Rename::Own => return Ok(Some(Style::Pascal)),
        Rename::Unread => return Ok(None),
    };
    let style = style_of(text);
    if style.is_none() {
        report.fault(Reason::Text(WRONG_STYLE).at(place))?;
    }
    Ok(style)
}

/// The name that `rename` gives to a variant.
pub(super) fn read_rename<'a>(
    report: &mut Report,
    attributes: &[Attribute<'a, '_>],
) -> Reading<Rename<'a>> {
    let name = read_name(report, attributes, true)?;
    match name {
        Rename::Given(text, place) if !is_plain(text) => {
            report.fault(Reason::Text(NOT_PLAIN).at(place))?;
        }
        _ => {}
    }
    Ok(name)
}

/// The last value of `rename_all`, or for a variant of `rename`. Anything else that changes names is a fault.
fn read_name<'a>(
    report: &mut Report,
    attributes: &[Attribute<'a, '_>],
    is_variant: bool,
) -> Reading<Rename<'a>> {
    let mut given = Rename::Own;
    for argument in arguments_of(report, attributes, "serde")? {
        given = match name_in(argument, given, is_variant) {
            Ok(name) => name,
            Err(fault) => {
                report.fault(fault)?;
                match given {
                    Rename::Given(_, _) => given,
                    Rename::Own | Rename::Unread => Rename::Unread,
                }
            }
        };
    }
    Ok(given)
}

/// The value of `rename` or `rename_all` in an argument of `serde`, or the name so far if the argument does not change
/// names.
fn name_in<'a>(
    argument: &[Token<'a>],
    given: Rename<'a>,
    is_variant: bool,
) -> Result<Rename<'a>, Fault> {
    let [name, rest @ ..] = argument else {
        return Ok(given);
    };
    match (name.text, is_variant) {
        ("rename" | "rename_all_fields" | "deny_unknown_fields", false)
        | ("rename_all", true)
        | ("crate" | "bound" | "expecting", _) => Ok(given),
        ("rename_all", false) | ("rename", true) if begins_value(rest) => {
            let (value, text) = value_of(name, rest)?;
            Ok(Rename::Given(text, value.place))
        }
        _ => Err(Fault::at(name, OTHER)),
    }
}

/// Whether a value follows the name of an argument.
fn begins_value(rest: &[Token]) -> bool {
    matches!(rest, [equal, ..] if equal.is("="))
}

/// Whether a text can be a name in JSON as it is written.
fn is_plain(text: &str) -> bool {
    let is_plain = |letter| matches!(letter, ' '..='!' | '#'..='[' | ']'..='~');
    text.chars().all(is_plain)
}

/// The names of the variants in JSON, in their order, where the enum has this style. Names that are given twice are
/// reported, as far as they could be read.
pub(super) fn json_names(
    report: &mut Report,
    style: Option<Style>,
    variants: &[Variant],
) -> Reading<Vec<String>>
    ensures { IfOk result (λ names. AreJsonNames style variants.now names.items) }
{
    let mut names = Vec::new(report.alloc);
    for i in 0..variants.len() {
        names.push(json_name(report.alloc, style, &variants[i])?)?;
    }
    test_names(report, style, variants, &names)?;
    Ok(names)
}

/// The name of a variant in JSON: the name given, or else its own name in this style.
fn json_name(alloc: Global, style: Option<Style>, variant: &Variant) -> Result<String, AllocError>
    ensures { IfOk result (λ name. IsJsonName style variant.now (string_bytes name)) }
{
    match (variant.rename, style) {
        (Rename::Given(name, _), _) => String::from_str(alloc, name),
        (Rename::Own, Some(style)) => styled(alloc, style, variant.name),
        _ => String::from_str(alloc, variant.name),
    }
}

/// Reports names in JSON that are given twice. `names` are those of the variants.
fn test_names(
    report: &mut Report,
    style: Option<Style>,
    variants: &[Variant],
    names: &[String],
) -> Reading {
    let mut earlier: BTreeMap<&str, &Variant> = BTreeMap::new(report.alloc);
    for (variant, name) in variants.iter().zip(names.iter()) {
        let is_read = match variant.rename {
            Rename::Given(_, _) => true,
            Rename::Own => style.is_some(),
            Rename::Unread => false,
        };
        if !is_read {
            continue;
        }
        if let Some(first) = earlier.insert(name.as_str(), variant)? {
            // Of two variants with the same name the plan says so.
            if first.name != variant.name {
                let fault = Reason::GivenTwice("name in JSON", first.json_place());
                report.fault(fault.at(variant.json_place()))?;
            }
        }
    }
    Ok(())
}
