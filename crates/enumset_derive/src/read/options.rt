//! Reads the options of an enum from `#[enumset(..)]`.

use crate::fault::{Fault, Reading, Reason};
use crate::items::{Attribute, arguments_of};
use crate::plan::{Library, Options};
use crate::report::Report;
use enumset_source::{Map, Place, Token, map_of, representation_of, serialized_of};

const WRONG_MAP: &str = "`map` must be \"lsb\", \"msb\", \"mask\" or \"compact\"";

const WRONG_REPRESENTATION: &str =
    "`repr` must be \"u8\", \"u16\", \"u32\", \"u64\", \"u128\" or \"array\"; for another \
    representation, write the element type by hand, as in docs/ELEMENT-TYPES.md";

const WRONG_FORM: &str =
    "`serialize_repr` must be \"u8\", \"u16\", \"u32\", \"u64\", \"u128\", \"array\", \"list\" or \"map\"";

const WRONG_CRATE: &str = "`crate_name` must be an identifier such as \"enumset\", or \"crate\"";

const OLD_LIST: &str = "`serialize_as_list` is now `serialize_repr = \"list\"`";

const UNKNOWN: &str =
    "unknown option: the options are map, repr, serialize_repr, serialize_deny_unknown, no_ops, \
    no_super_impls, display, parse and crate_name";

const DENY_ALONE: &str = "`serialize_deny_unknown` has no effect without `serialize_repr`";

const OTHER_LIBRARY: &str =
    "sets in JSON need `enumset`: remove this `crate_name`, or `serialize_repr`";

const OTHER_NAMES: &str = "`parse` needs `enumset`: remove this `crate_name`, or `parse`";

/// The options in these attributes.
pub(super) fn read_options<'a>(
    report: &mut Report,
    attributes: &[Attribute<'a, '_>],
) -> Reading<Options<'a>> {
    let mut options = Options::default();
    let mut given: Vec<Token> = Vec::new(report.alloc);
    let mut unread: Option<Place> = None;
    for argument in arguments_of(report, attributes, "enumset")? {
        let name = argument.first().copied();
        options = match read_option(options, &given, argument) {
            Ok(options) => options,
            Err(fault) => {
                report.fault(fault)?;
                let bits = name.filter(|name| name.is("map") || name.is("repr"));
                unread = unread.or(bits.map(|name| name.place));
                options
            }
        };
        given.extend(name)?;
    }
    test_json(report, &options, &given)?;
    match unread {
        Some(place) => Ok(without_bits(options, place)),
        None => Ok(options),
    }
}

/// The options of an enum whose `map` or `repr`, at this place, cannot be read. No bit of it is known, so what is tested
/// is only what holds under any `map`: each variant has its place for a bit.
fn without_bits(options: Options<'_>, place: Place) -> Options<'_> {
    Options {
        map: Some((Map::Compact, place)),
        representation: None,
        ..options
    }
}

/// Reports a crate without sets in JSON and lists of names, and notes an option that has no effect. `given` are the names
/// of the options.
fn test_json(report: &mut Report, options: &Options, given: &[Token]) -> Reading {
    if options.denies_unknown && options.serialized.is_none() {
        let mut given = given.iter();
        if let Some(name) = given.find(|name| name.is("serialize_deny_unknown")) {
            report.remark(name.place, DENY_ALONE)?;
        }
    }
    match options.library {
        Some((Library::SetsAlone, place)) if options.serialized.is_some() => {
            report.fault(Reason::Text(OTHER_LIBRARY).at(place))
        }
        Some((Library::SetsAlone, place)) if options.is_parsed => {
            report.fault(Reason::Text(OTHER_NAMES).at(place))
        }
        _ => Ok(()),
    }
}

/// The options with the one in an argument, which has the punctuation after it. `given` are the names of the options
/// before it.
fn read_option<'a>(
    options: Options<'a>,
    given: &[Token],
    argument: &[Token<'a>],
) -> Result<Options<'a>, Fault> {
    let [name, value @ ..] = argument else {
        return Ok(options);
    };
    if !name.is_ident() {
        return Err(Fault::unexpected(name, "an option or `)`"));
    }
    if let Some(first) = given.iter().find(|first| first.is(name.text)) {
        return Err(Reason::GivenTwice("option", first.place).at(name.place));
    }
    let after = match value {
        [equal, _, after @ ..] if equal.is("=") => after,
        after => after,
    };
    match after {
        [more, ..] if !more.is_punct(",)]}") => Err(Fault::unexpected(more, "`,` or `)`")),
        _ => with_value(options, name, value),
    }
}

/// The options with the one of this name. The tokens of the value include the punctuation after it.
fn with_value<'a>(
    mut options: Options<'a>,
    name: &Token<'a>,
    value: &[Token<'a>],
) -> Result<Options<'a>, Fault> {
    match name.text {
        "map" => {
            let (value, text) = value_of(name, value)?;
            let map = map_of(text).ok_or(Fault::at(&value, WRONG_MAP))?;
            options.map = Some((map, value.place));
        }
        "repr" => {
            let (value, text) = value_of(name, value)?;
            let fault = Fault::at(&value, WRONG_REPRESENTATION);
            options.representation = Some(representation_of(text).ok_or(fault)?);
        }
        "serialize_repr" => {
            let (value, text) = value_of(name, value)?;
            options.serialized = Some(serialized_of(text).ok_or(Fault::at(&value, WRONG_FORM))?);
        }
        "crate_name" => match value_of(name, value)? {
            (value, text) if is_identifier(text) => {
                options.library = Some((Library::named(text), value.place));
            }
            (value, _) => return Err(Fault::at(&value, WRONG_CRATE)),
        },
        "serialize_deny_unknown" => options.denies_unknown = boolean_of(value)?,
        "no_ops" => options.leaves_out_operators = boolean_of(value)?,
        "no_super_impls" => options.leaves_out_supertraits = boolean_of(value)?,
        "display" => options.has_display = boolean_of(value)?,
        "parse" => options.is_parsed = boolean_of(value)?,
        "serialize_as_list" => return Err(Fault::at(name, OLD_LIST)),
        _ => return Err(Fault::at(name, UNKNOWN)),
    }
    Ok(options)
}

/// The value of an option or attribute with this name, and the text in its quotes. `rest` follows the name.
pub(super) fn value_of<'a>(
    name: &Token<'a>,
    rest: &[Token<'a>],
) -> Result<(Token<'a>, &'a str), Fault> {
    let (value, text) = match rest {
        [equal, value, ..] if equal.is("=") => (value, value.unquoted()),
        _ => (rest.first().unwrap_or(name), None),
    };
    let fault = Fault::unexpected(value, "`=` and a string literal");
    Ok((*value, text.ok_or(fault)?))
}

/// The boolean value in the tokens after the name of an option. Without a value it is true.
fn boolean_of(rest: &[Token]) -> Result<bool, Fault> {
    match rest {
        [equal, value, ..] if equal.is("=") => match value.unquoted().unwrap_or(value.text) {
            "true" => Ok(true),
            "false" => Ok(false),
            _ => Err(Fault::unexpected(value, "`true` or `false`")),
        },
        _ => Ok(true),
    }
}

/// Whether a text is an ASCII identifier or a keyword.
fn is_identifier(text: &str) -> bool {
    let is_letter = |letter: char| letter.is_ascii_alphanumeric() || letter == '_';
    let is_digit = |letter: char| letter.is_ascii_digit();
    !text.is_empty() && text.chars().all(is_letter) && !text.starts_with(is_digit)
}
