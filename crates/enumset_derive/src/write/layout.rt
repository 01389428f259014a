//! Lays out what `rt fmt` leaves as it is: lists in contracts and the arguments of macros. The rest is not laid out
//! here.

use super::{Subject, Text, Writing};
use std::alloc::Global;
use std::fmt::Display;

/// The attribute of an item that exists only for tests. If it were one literal, the toolchain would look for tests
/// here.
const FOR_TESTS: &str = concat!("#", "[cfg(test)]\n");

/// Items with spaces between them, broken into lines. The first line has room for `first` bytes. Each other line begins
/// with `start` and has room for `other` bytes.
fn filled(alloc: Global, items: &[String], first: usize, start: &str, other: usize) -> Text {
    let mut out = String::new(alloc);
    let mut left = first;
    for item in items {
        let item = item.as_str();
        if !out.is_empty() && item.len() < left {
            out.push(' ')?;
            left -= 1;
        } else if !out.is_empty() {
            out.push_str(start)?;
            left = other;
        }
        left = left.saturating_sub(item.len());
        out.push_str(item)?;
    }
    Ok(out)
}

/// A list in a contract, with these texts before and after each item. Its first line has room for `first` bytes.
pub(super) fn list_of(
    alloc: Global,
    first: usize,
    items: &[impl Display],
    before: &str,
    after: &str,
) -> Text {
    let mut parts = Vec::new(alloc);
    for item in items {
        parts.push(format!(in alloc; "{before}{item}{after} ∷")?)?;
    }
    parts.push(String::from_str(alloc, "[]")?)?;
    filled(alloc, &parts, first, "\n        ", 92)
}

/// The list of the names of the variants in a contract.
pub(super) fn list_of_names(subject: &Subject, first: usize, before: &str, after: &str) -> Text {
    let variants = subject.element.declaration.variants.iter();
    let names: Vec<&str> = variants.map(|variant| variant.name).collect(subject.alloc)?;
    list_of(subject.alloc, first, &names, before, after)
}

/// Writes the body of a function that calls a macro with these items, on one line if they fit.
pub(super) fn write_call(out: &mut String, alloc: Global, name: &str, items: &[String]) -> Writing {
    let line = items.join(alloc, " ")?;
    if line.len() <= 90usize.saturating_sub(name.len()) {
        return write!(out, "        {name}({line})\n");
    }
    let lines = filled(alloc, items, 88, "\n            ", 88)?;
    write!(out, "        {name}(\n            {lines}\n        )\n")
}

/// Writes the head of an implementation of a trait, after an empty line and its own comment or attribute.
pub(super) fn write_head(out: &mut String, subject: &Subject, above: &str, form: &str) -> Writing {
    write_generic_head(out, subject, above, "", form)
}

/// The same with type parameters.
pub(super) fn write_generic_head(
    out: &mut String,
    subject: &Subject,
    above: &str,
    parameters: &str,
    form: &str,
) -> Writing {
    let (name, guard) = (subject.name, guard_of(subject));
    write!(
        out,
        "\n\n{above}{guard}impl{parameters} {form} for {name} {{\n"
    )
}

/// The attribute of each implementation of an enum that exists only for tests.
pub(super) fn guard_of(subject: &Subject) -> &'static str {
    match subject.element.declaration.head.is_for_tests {
        true => FOR_TESTS,
        false => "",
    }
}
