//! Reads the variants of an enum, and tests names.

use super::attributes::{Setting, kept_lines};
use super::discriminants::read_discriminant;
use super::json_names::read_rename;
use crate::fault::{Fault, Reading};
use crate::items::{Attribute, bracket_length, skip};
use crate::plan::{Discriminant, Line, Options, Rename, Variant};
use crate::report::Report;
use enumset_source::{Kind, Map, Token};

const RAW: &str = "raw identifiers are not supported: choose a name that is not a keyword";

const FIELDS: &str = "a variant must not have fields";

const NOT_ASCII: &str = "names must be ASCII";

/// What is between the braces of an enum.
#[derive(Drop)]
pub(super) struct Body<'a, 'b> {
    pub variants: Vec<Variant<'a, 'b>>,
    /// The comments after the last variant.
    pub last_comments: Vec<Line<'a, 'b>>,
}

/// Reads the variants of an enum. `body` has the tokens after its `{`, up to the `}`.
pub(super) fn read_body<'a, 'b>(
    report: &mut Report,
    body: &'b [Token<'a>],
    options: &Options,
    setting: Setting<'_, 'a>,
) -> Reading<Body<'a, 'b>> {
    let mut variants: Vec<Variant> = Vec::new(report.alloc);
    let mut last_comments = Vec::new(report.alloc);
    let mut rest = body;
    // Each iteration takes at least one token. The bound shows that the loop ends.
    for _ in 0..body.len() {
        // Too many variants are a fault of the plan, for which one too many is enough.
        if variants.len() > 256 {
            break;
        }
        let length = variant_length(rest);
        let own = rest.get(..length).unwrap_or(rest);
        rest = skip(rest, length);
        let (attributes, tokens) = Attribute::before(report.alloc, own)?;
        let Some(name) = tokens.first() else {
            break;
        };
        let lines = kept_lines(report, &attributes, setting)?;
        let are_comments = attributes
            .iter()
            .all(|attribute| attribute.name.is_comment());
        if name.is("}") && are_comments {
            last_comments = lines;
            break;
        }
        if let Some(mut variant) = read_variant(report, options, tokens)? {
            variant.lines = lines;
            variant.is_apart = own.first().is_some_and(|first| first.is_after_empty_line());
            if setting.are_named {
                variant.rename = read_rename(report, &attributes)?;
            }
            variants.push(variant)?;
        }
    }
    Ok(Body {
        variants,
        last_comments,
    })
}

/// The number of tokens in the variant at the beginning, with the comments after it on its line. For the last variant
/// it includes the `}`.
fn variant_length(tokens: &[Token]) -> usize {
    let is_end = |token: &Token| token.depth <= 1 && token.is(",");
    let Some(comma) = tokens.iter().position(is_end) else {
        return tokens.len();
    };
    let length = comma.saturating_add(1);
    let is_beside = |token: &&Token| matches!(token.kind, Kind::Comment) && !token.begins_line();
    let beside = tokens.iter().skip(length).take_while(is_beside);
    beside.count().saturating_add(length)
}

/// Reads a variant, from its name to the comments after its punctuation, or returns `None` if it has no name.
fn read_variant<'a, 'b>(
    report: &mut Report,
    options: &Options,
    tokens: &'b [Token<'a>],
) -> Reading<Option<Variant<'a, 'b>>> {
    let alloc = report.alloc;
    let comments = tokens.iter().filter(|token| token.is_comment());
    let words = tokens.iter().filter(|token| !token.is_comment());
    let words: Vec<Token> = words.copied().collect(alloc)?;
    let [name, rest @ ..] = words.as_slice() else {
        return Ok(None);
    };
    if !name.is_ident() {
        report.fault(Fault::unexpected(name, "a variant"))?;
        return Ok(None);
    }
    test_name(report, name)?;
    let mut inner = tokens
        .iter()
        .filter(|token| matches!(token.kind, Kind::InnerDoc));
    if let Some(comment) = inner.next() {
        report.fault(Fault::unexpected(comment, "a variant"))?;
    }
    let after = match rest {
        [open, inside @ ..] if open.is_punct("({") => {
            report.fault(Fault::at(open, FIELDS))?;
            skip(rest, bracket_length(1, open, inside))
        }
        _ => rest,
    };
    let has_masks = matches!(options.map, Some((Map::Mask, _)));
    let discriminant = match discriminant_in(name, after, has_masks) {
        Ok(discriminant) => discriminant,
        Err(fault) => {
            report.fault(fault)?;
            Discriminant::Unread
        }
    };
    Ok(Some(Variant {
        place: name.place,
        lines: Vec::new(alloc),
        is_apart: false,
        name: name.text,
        rename: Rename::Own,
        discriminant,
        comments: comments.map(|comment| comment.text).collect(alloc)?,
    }))
}

/// Reads a discriminant from the tokens after the name of a variant, or after its fields.
fn discriminant_in<'a>(
    name: &Token<'a>,
    rest: &[Token<'a>],
    has_masks: bool,
) -> Result<Discriminant<'a>, Fault> {
    match rest {
        [end] if end.is_punct(",}") => Ok(Discriminant::Implied),
        [equal, value @ .., end] if equal.is("=") => {
            read_discriminant(value, end, has_masks).map(Discriminant::Given)
        }
        [next, ..] => Err(Fault::unexpected(next, "`,` or `}`")),
        [] => Err(Fault::unexpected(name, "`,` or `}`")),
    }
}

/// Reports a name that cannot be a name in Rattle.
pub(super) fn test_name(report: &mut Report, name: &Token) -> Reading {
    match name.text {
        text if text.starts_with("r#") => report.fault(Fault::at(name, RAW)),
        text if !text.is_ascii() => report.fault(Fault::at(name, NOT_ASCII)),
        _ => Ok(()),
    }
}
