//! The items that are left out, and the element types inside them.

ghost use Rattle.std.specs.Prelude.{◌≡◌, IfOk, map};
ghost use Rattle.std.specs.List.{filter};
ghost use Rattle.enumset_derive.specs.Items.{is_left_out};

use super::derives::is_element_type;
use crate::fault::Reading;
use crate::items::Item;
use crate::report::{Note, Report};
use enumset_source::{Kind, Token};
use std::alloc::{AllocError, Global};

/// The items that are left out: all but element types, imports and empty items.
pub(super) fn left_out<'s, 'a, 'b>(
    alloc: Global,
    items: &'s [Item<'a, 'b>],
) -> Result<Vec<&'s Item<'a, 'b>>, AllocError>
    ensures { IfOk result (λ left. map (λ i. i.now) left.items ≡ filter is_left_out items.now) }
{
    let mut left = Vec::new(alloc);
    for item in items {
        if is_left_out(item) {
            left.push(item)?;
        }
    }
    Ok(left)
}

/// Whether an item is left out.
fn is_left_out(item: &Item) -> bool
    ensures { result ≡ is_left_out item.now }
{
    match item.tokens {
        [] => false,
        [begin, ..] if begin.is("use") || begin.is(";") => false,
        [begin, next, ..] if begin.is("extern") && next.is("crate") => false,
        _ => !is_element_type(item),
    }
}

/// Notes that an item is left out.
pub(super) fn note_left_out(report: &mut Report, item: &Item) -> Reading {
    let (Some(first), Some(last)) = (item.begin(), item.tokens.last()) else {
        return Ok(());
    };
    if item.is_inner() {
        return report.leave_out(item.tokens);
    }
    report.note(Note::Item(first.place, last.place.line, what_of(item)))
}

/// What an item is, by its keyword.
fn what_of(item: &Item) -> &'static str {
    let (_, words) = item.visibility();
    let is_qualifier = |word: &&Token| {
        let is_abi = matches!(word.kind, Kind::Literal);
        is_abi || matches!(word.text, "async" | "const" | "extern" | "unsafe")
    };
    let qualifiers = words.iter().take_while(is_qualifier).count();
    let keyword = match (words, words.get(qualifiers)) {
        ([_, not, ..], _) if not.is("!") => return "a macro",
        (_, Some(word)) if matches!(word.text, "fn" | "impl" | "trait" | "mod") => word,
        ([first, ..], _) => first,
        _ => return "other code",
    };
    match keyword.text {
        "mod" => "a module",
        "impl" => "an `impl`",
        "fn" => "a function",
        "const" | "static" => "a constant",
        "struct" => "a struct",
        "union" => "a union",
        "extern" => "an `extern` block",
        "enum" => "an enum",
        "trait" => "a trait",
        "type" => "a type",
        "use" => "an import",
        _ => "other code",
    }
}

/// Notes the element types inside an item that is not one.
pub(super) fn note_inside(report: &mut Report, item: &Item) -> Reading {
    let what = what_of(item);
    // The depth of the brackets of the current derive, and whether a derive since the last enum names `EnumSetType`.
    let (mut depth, mut is_derived) = (u32::MAX, false);
    for [token, next] in item.tokens.array_windows::<2>() {
        if token.is("derive") && next.is("(") {
            depth = next.depth;
        } else if token.depth < depth {
            depth = u32::MAX;
        }
        is_derived |= depth < u32::MAX && token.is("EnumSetType");
        if is_derived && token.is("enum") && token.is_ident() {
            is_derived = false;
            let (space, name) = if next.is_ident() {
                (" ", next.text)
            } else {
                ("", "")
            };
            let line = next.place.line;
            let text = format!(in report.alloc;
                "line {line}: the element type{space}{name} is inside {what}: move it to the top level"
            )?;
            report.note(Note::Other(next.place, text))?;
        }
    }
    Ok(())
}
