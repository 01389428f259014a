//! Tells which comments and attributes of an enum and its variants are kept.

use crate::fault::{Fault, Reading};
use crate::items::Attribute;
use crate::plan::{Derive, Line};
use crate::report::Report;
use enumset_source::{Kind, Token};
use std::alloc::{AllocError, Global};

const CONFIGURATION: &str =
    "the only `cfg` that an enum may have is `cfg(test)`: remove the attribute or the enum";

const ON_VARIANT: &str = "a variant must not have a `cfg`: remove the attribute or the variant";

const OPTIONS_ALONE: &str = "`cfg_attr` is not supported: write `#[enumset(..)]` without it";

const SERDE_ALONE: &str = "`cfg_attr` is not supported: write `#[serde(..)]` without it";

/// What it depends on whether an attribute is kept.
#[derive(Clone, Copy)]
pub(super) struct Setting<'s, 'a> {
    /// The derives of the enum.
    pub derives: &'s [Derive<'a>],
    /// Whether sets in JSON consist of names.
    pub are_named: bool,
    /// Whether the attribute is a variant's.
    pub is_variant: bool,
}

/// What becomes of an attribute or of a comment next to it.
enum Fate {
    Kept,
    LeftOut,
    /// It is read: a derive, options, or names in JSON.
    Read,
}

/// The comments and attributes that are kept. Others are noted, unless they are read.
pub(super) fn kept_lines<'a, 'b>(
    report: &mut Report,
    attributes: &[Attribute<'a, 'b>],
    setting: Setting<'_, 'a>,
) -> Reading<Vec<Line<'a, 'b>>> {
    let mut lines = Vec::new(report.alloc);
    for attribute in attributes {
        match fate_of(attribute, setting) {
            Ok(Fate::Kept) => lines.push(attribute.tokens)?,
            Ok(Fate::LeftOut) => report.leave_out(attribute.tokens)?,
            Ok(Fate::Read) => lines.append(&mut comments_in(report.alloc, attribute.tokens)?)?,
            Err(fault) => report.fault(fault)?,
        }
    }
    Ok(lines)
}

/// The comments among the tokens, each as its own line.
pub(super) fn comments_in<'a, 'b>(
    alloc: Global,
    tokens: &'b [Token<'a>],
) -> Result<Vec<Line<'a, 'b>>, AllocError> {
    let is_comment = |tokens: &Line| matches!(tokens, [first] if first.is_comment());
    tokens.chunks(1).filter(is_comment).collect(alloc)
}

/// What becomes of an attribute or of a comment next to it.
fn fate_of(attribute: &Attribute, setting: Setting) -> Result<Fate, Fault> {
    let name = &attribute.name;
    let derives = |derive: &str| setting.derives.iter().any(|own| own.name == derive);
    let is_kept = match name.text {
        _ if name.is_comment() => true,
        "derive" | "enumset" if !setting.is_variant => return Ok(Fate::Read),
        "serde" if derives("Serialize") || derives("Deserialize") => true,
        "serde" if setting.are_named => return Ok(Fate::Read),
        "default" => setting.is_variant && derives("Default"),
        "error" => derives("Error"),
        "doc" => is_doc(attribute),
        "cfg" if setting.is_variant => return Err(Fault::at(name, ON_VARIANT)),
        "cfg" if !attribute.is_written(&["(", "test", ")", "]"]) => {
            return Err(Fault::at(name, CONFIGURATION));
        }
        "cfg_attr" if attribute.calls("enumset") => return Err(Fault::at(name, OPTIONS_ALONE)),
        "cfg_attr" if setting.are_named && attribute.calls("serde") => {
            return Err(Fault::at(name, SERDE_ALONE));
        }
        "cfg" | "deprecated" | "non_exhaustive" => true,
        "allow" | "warn" | "deny" | "forbid" | "expect" | "clippy" | "tactic" => true,
        "must_use" | "rattlefmt" | "cycle" | "derive_where" => !setting.is_variant,
        _ => false,
    };
    Ok(if is_kept { Fate::Kept } else { Fate::LeftOut })
}

/// Whether an attribute `doc` has a text, or is `doc(hidden)`.
fn is_doc(attribute: &Attribute) -> bool {
    match attribute.words.as_slice() {
        [equal, text, _] if equal.is("=") => matches!(text.kind, Kind::Literal),
        _ => attribute.is_written(&["(", "hidden", ")", "]"]),
    }
}
