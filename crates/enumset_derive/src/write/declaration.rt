//! Writes the enum of an element type.

use super::Writing;
use crate::element::Element;
use crate::plan::{Discriminant, EnumDeclaration, Given, Line, Variant};
use enumset_source::{Number, tokens};
use std::alloc::Global;

/// The comment on an enum that lost its discriminants.
const DROPPED: &str =
    "// Its discriminants are left out, since one is outside the range of Rattle, -2^63 to 2^63 - 1.\n";

/// The traits that an element type needs.
const SUPERTRAITS: [&str; 4] = ["Clone", "Copy", "PartialEq", "Eq"];

/// Writes the enum.
pub(super) fn write_enum(out: &mut String, alloc: Global, element: &Element) -> Writing {
    let declaration = &element.declaration;
    let head = &declaration.head;
    write_lines(out, &head.lines, "")?;
    if !element.has_discriminants {
        out.push_str(DROPPED)?;
    }
    write_derives(out, alloc, declaration)?;
    write_lines(out, &head.later_lines, "")?;
    if !head.visibility.is_empty() {
        write!(out, "{} ", tokens::Written(head.visibility))?;
    }
    write!(out, "enum {} {{", head.name.text)?;
    if !declaration.variants.is_empty() || !declaration.last_comments.is_empty() {
        out.push('\n')?;
    }
    for (index, variant) in declaration.variants.iter().enumerate() {
        if variant.is_apart && index > 0 {
            out.push('\n')?;
        }
        write_variant(out, variant, element.has_discriminants)?;
    }
    write_lines(out, &declaration.last_comments, "    ")?;
    out.push('}')
}

/// Writes comments and attributes on their own lines, after this indentation.
fn write_lines(out: &mut String, lines: &[Line], indent: &str) -> Writing {
    for line in lines {
        write!(out, "{indent}{}\n", tokens::Written(*line))?;
    }
    Ok(())
}

/// Writes a variant, with its discriminant if the enum has them.
fn write_variant(out: &mut String, variant: &Variant, has_discriminant: bool) -> Writing {
    write_lines(out, &variant.lines, "    ")?;
    write!(out, "    {}", variant.name)?;
    match variant.discriminant {
        Discriminant::Given(given) if has_discriminant => write_discriminant(out, given)?,
        _ => {}
    }
    out.push(',')?;
    for comment in &variant.comments {
        write!(out, " {comment}")?;
    }
    out.push('\n')
}

/// Writes a discriminant: its literal, or else its number.
fn write_discriminant(out: &mut String, given: Given) -> Writing {
    let sign = if matches!(given.number, Number::Negative(_)) {
        "-"
    } else {
        ""
    };
    match (given.literal, given.number) {
        (Some(literal), _) => write!(out, " = {sign}{literal}"),
        (None, Number::Natural(number) | Number::Negative(number)) => {
            write!(out, " = {sign}{number}")
        }
    }
}

/// Writes the derives: those that an element type needs, and those of the source.
fn write_derives(out: &mut String, alloc: Global, declaration: &EnumDeclaration) -> Writing {
    let is_full = !declaration.options.leaves_out_supertraits;
    let mut derives: Vec<&str> = Vec::new(alloc);
    if is_full {
        derives.extend(SUPERTRAITS)?;
    }
    for derive in &declaration.derives {
        if !(is_full && SUPERTRAITS.contains(&derive.name)) {
            derives.push(derive.path)?;
        }
    }
    match derives.is_empty() {
        true => Ok(()),
        false => write!(out, "#[derive({})]\n", derives.join(alloc, ", ")?),
    }
}
