//! Reads an enum that is to become an element type.

use super::attributes::{Setting, comments_in, kept_lines};
use super::derives::{read_derives, test_derives};
use super::json_names::{json_names, read_style};
use super::options::read_options;
use super::variants::{Body, read_body, test_name};
use crate::fault::{Fault, Reading, Reason};
use crate::items::{Attribute, Item};
use crate::plan::{EnumDeclaration, EnumHead, Line};
use crate::report::Report;
use enumset_source::{Kind, Place, Style, Token};

const NO_ENUM_NAME: &str =
    "contracts import the variants of an enum under the name `TheVariants`: choose another name";

const NO_VARIANTS: &str =
    "`rt ci` rejects the functions of this enum, since it has no variants and they cannot be called";

const OTHER_ITEMS: [&str; 10] = [
    "struct", "union", "fn", "const", "static", "trait", "type", "mod", "impl", "use",
];

/// Reads an enum from an item, or returns `None` if it has no name or no variants. Its faults are reported, and what can
/// be read is returned.
pub(super) fn read_enum<'a, 'b>(
    report: &mut Report,
    item: &Item<'a, 'b>,
) -> Reading<Option<EnumDeclaration<'a, 'b>>> {
    let attributes = item.attributes.as_slice();
    let options = read_options(report, attributes)?;
    let derives = read_derives(report, attributes)?;
    test_derives(report, attributes, &options)?;
    let style = match options.are_named() {
        true => read_style(report, attributes)?,
        false => Some(Style::Pascal),
    };
    let setting = Setting {
        derives: &derives,
        are_named: options.are_named(),
        is_variant: false,
    };
    let (lines, later_lines) = lines_of(report, attributes, setting)?;
    let parts = match parts_of(item) {
        Ok(parts) => parts,
        Err(fault) => return report.fault(fault).map(|()| None),
    };
    let head = read_head(report, item, &parts, lines, later_lines)?;
    let setting = Setting {
        is_variant: true,
        ..setting
    };
    let Body {
        variants,
        last_comments,
    } = read_body(report, parts.body, &options, setting)?;
    if variants.is_empty() {
        report.remark(head.name.place, NO_VARIANTS)?;
    }
    let json_names = json_names(report, style, &variants)?;
    Ok(Some(EnumDeclaration {
        head,
        derives,
        options,
        variants,
        last_comments,
        json_names,
    }))
}

/// The comments and the attributes that are kept: those before the first derive, and those after it.
fn lines_of<'a, 'b>(
    report: &mut Report,
    attributes: &[Attribute<'a, 'b>],
    setting: Setting<'_, 'a>,
) -> Reading<(Vec<Line<'a, 'b>>, Vec<Line<'a, 'b>>)> {
    let first = attributes
        .iter()
        .position(|attribute| attribute.is("derive"));
    let (earlier, later) = attributes.split_at(first.unwrap_or(0));
    let lines = kept_lines(report, earlier, setting)?;
    Ok((lines, kept_lines(report, later, setting)?))
}

/// Reads what is before the variants. Its lines before and after the first derive are given.
fn read_head<'a, 'b>(
    report: &mut Report,
    item: &Item<'a, 'b>,
    parts: &Parts<'a, 'b>,
    lines: Vec<Line<'a, 'b>>,
    mut later_lines: Vec<Line<'a, 'b>>,
) -> Reading<EnumHead<'a, 'b>> {
    later_lines.append(&mut comments_in(report.alloc, parts.before)?)?;
    if parts.name.is("TheVariants") {
        report.fault(Fault::at(parts.name, NO_ENUM_NAME))?;
    }
    test_name(report, parts.name)?;
    if let Some(next) = parts.before.iter().find(|token| has_parameters(*token)) {
        report.fault(Fault::at(next, "the enum must not have generic parameters"))?;
    }
    let (visibility, _) = item.visibility();
    let mut attributes = item.attributes.iter();
    Ok(EnumHead {
        lines,
        later_lines,
        is_for_tests: attributes.any(|attribute| attribute.is("cfg")),
        visibility,
        name: *parts.name,
    })
}

/// The parts of an enum after its attributes.
#[derive(Clone, Copy)]
struct Parts<'a, 'b> {
    name: &'b Token<'a>,
    /// The tokens up to its `{`.
    before: &'b [Token<'a>],
    /// The tokens after that.
    body: &'b [Token<'a>],
}

/// Finds the name of an enum and its `{`.
fn parts_of<'a, 'b>(item: &Item<'a, 'b>) -> Result<Parts<'a, 'b>, Fault> {
    let (_, words) = item.visibility();
    let (keyword, rest) = next_word(item, words, "an enum")?;
    if OTHER_ITEMS.contains(&keyword.text) {
        return Err(Fault::at(keyword, "only an enum can derive `EnumSetType`"));
    }
    if !keyword.is("enum") {
        return Err(Fault::unexpected(keyword, "`enum`"));
    }
    let (name, rest) = next_word(item, rest, "the name of the enum")?;
    if !name.is_ident() {
        return Err(Fault::unexpected(name, "the name of the enum"));
    }
    let (next, _) = next_word(item, rest, "`{`")?;
    let open = rest.iter().position(|token| token.is("{"));
    let (Some(open), true) = (open, next.is("{") || has_parameters(next)) else {
        return Err(Fault::unexpected(next, "`{`"));
    };
    let body = rest.get(open.saturating_add(1)..).unwrap_or(&[]);
    let length = item.tokens.len().saturating_sub(body.len());
    Ok(Parts {
        name,
        before: item.tokens.get(..length).unwrap_or(&[]),
        body,
    })
}

/// Whether the parameters of an enum, or what they must satisfy, begin with this token.
fn has_parameters(next: &Token) -> bool {
    next.is("<") || next.is("where")
}

/// The first token of an item that is not a comment, and the tokens after it. It is a fault if there is none, where
/// this is expected.
fn next_word<'a, 'b>(
    item: &Item<'a, 'b>,
    tokens: &'b [Token<'a>],
    expected: &'static str,
) -> Result<(&'b Token<'a>, &'b [Token<'a>]), Fault> {
    let mut rest = tokens;
    for token in tokens {
        rest = rest.get(1..).unwrap_or(&[]);
        if !token.is_comment() {
            return Ok((token, rest));
        }
    }
    let place = item.tokens.last().map_or(Place::BEGIN, |last| last.place);
    Err(Reason::Expected(expected, Kind::End, ' ').at(place))
}
