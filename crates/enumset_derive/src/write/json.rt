//! Writes `to_json` and `from_json` for the sets of an element type, and the same for strings of JSON.

use super::layout::guard_of;
use super::names::unknown_of;
use super::{Subject, Text, Writing};
use crate::plan::{Options, Plan, Store};
use enumset_source::{IntegerType, Representation, Serialized};

const OF_NUMBERS: &str =
    "    ghost use Rattle.std.specs.Prelude.{◌≡◌, ◌↔◌, ◌⊎◌, false, IsOk, IfOk, IfErr, Some, Err, IsTrue};
    ghost use Rattle.std.specs.Prelude.{string_bytes, decimal};
    ghost use Rattle.enumset.specs.Sets.{is_subset, below, number, valid_bits};";

const OF_WORDS: &str =
    "    ghost use Rattle.std.specs.Prelude.{◌≡◌, IfOk, IfErr, Some, string_bytes};
    ghost use Rattle.enumset.specs.Sets.{words, valid_bits};
    ghost use Rattle.serde_json.specs.Written.{compact_text};";

const OF_NAMES: &str =
    "    ghost use Rattle.std.specs.Prelude.{◌≡◌, IfOk, IfErr, Some, string_bytes};
    ghost use Rattle.serde_json.specs.Written.{compact_text};";

const NAMES: &str = "Names.{names_of};
    ghost use Rattle.enumset.specs.JsonNames";

const WORDS: &str = "array of the set's words of 64 bits, the lowest first";

const LIST: &str = "array of the names of the set's members, in ascending order of their bits";

const MAP: &str = "object that maps the name of each of the set's members to `true`";

/// What a set is in JSON.
#[derive(Clone, Copy)]
enum Form {
    /// A number with this many bits, at most 64, since JSON values do not have numbers of 128 bits.
    Number(u32),
    Words,
    List,
    Map,
}

impl Form {
    fn of(serialized: Serialized, plan: &Plan) -> Form {
        match serialized {
            Serialized::Bits(Representation::Integer(IntegerType::U128)) if plan.bit_width > 64 => {
                Form::Words
            }
            Serialized::Bits(Representation::Integer(integer)) => {
                Form::Number(integer.width().min(64))
            }
            Serialized::Bits(Representation::Words) => Form::Words,
            Serialized::List => Form::List,
            Serialized::Map => Form::Map,
        }
    }

    /// The part of the names of the functions and definitions.
    fn name(self) -> &'static str {
        match self {
            Form::Number(_) => "number",
            Form::Words => "words",
            Form::List => "list",
            Form::Map => "map",
        }
    }

    /// The imports of the contracts.
    fn cited(self) -> &'static str {
        match self {
            Form::Number(_) => OF_NUMBERS,
            Form::Words => OF_WORDS,
            Form::List | Form::Map => OF_NAMES,
        }
    }

    /// The path of the definitions after `Rattle.enumset.specs.`.
    fn definitions(self) -> &'static str {
        match self {
            Form::Number(_) | Form::Words => "Json",
            Form::List | Form::Map => NAMES,
        }
    }

    /// What a set is in JSON, for the doc comment.
    fn doc(self) -> &'static str {
        match self {
            Form::Number(_) => "set's number",
            Form::Words => WORDS,
            Form::List => LIST,
            Form::Map => MAP,
        }
    }

    fn fault(self) -> &'static str {
        match self {
            Form::Number(_) => "TooWide",
            Form::Words | Form::List | Form::Map => "OutOfMemory",
        }
    }

    /// The part of the name of the test for strings that are read without a tree of values.
    fn plain(self) -> &'static str {
        match self {
            Form::Number(_) => "Number",
            Form::Words => "Words",
            Form::List => "List",
            Form::Map => "Map",
        }
    }

    /// The imports of the faults.
    fn faults(self) -> &'static str {
        match self {
            Form::Number(_) => "TooWide, OutOfMemory",
            Form::Words | Form::List | Form::Map => "OutOfMemory",
        }
    }

    /// The last argument of the function of `set_json`, after a comma.
    fn argument(self, subject: &Subject) -> Text {
        match self {
            Form::Number(width) => format!(in subject.alloc; ", set_json::JsonWidth::U{width}"),
            Form::Words | Form::List | Form::Map => Ok(String::new(subject.alloc)),
        }
    }

    /// The arguments with which a contract reads a value.
    fn read_by(self, subject: &Subject) -> Text {
        let (alloc, own) = (subject.alloc, subject.name);
        let elements = format!(in alloc; "⟦<{own} as EnumSetType>⟧.elements")?;
        match self {
            Form::Number(width) => format!(in alloc; "(valid_bits {elements}) {width}"),
            Form::Words => format!(in alloc; "(valid_bits {elements})"),
            Form::List | Form::Map => {
                format!(in alloc; "(names_of {elements} ⟦<{own} as EnumSetNames>⟧.names)")
            }
        }
    }

    /// The arguments of the value of a set in a contract, after white space.
    fn value(self, subject: &Subject) -> Text {
        let alloc = subject.alloc;
        let count = match &subject.element.plan.store {
            Store::Integer(integer, _) => integer.width().div_ceil(64) as usize,
            Store::Words(words) => words.len(),
        };
        match self {
            Form::Number(_) => String::from_str(alloc, " (number set.now)"),
            Form::Words => format!(in alloc; " (words set.now {count})"),
            Form::List | Form::Map => {
                let read_by = self.read_by(subject)?;
                format!(in alloc; "\n            {read_by} set.now")
            }
        }
    }
}

/// What `from_json` does at unknown bits and names, for the doc comment.
fn unknown_doc(options: &Options) -> &'static str {
    match (options.denies_unknown, options.are_named()) {
        (true, true) => "A name that no variant has is a fault.",
        (true, false) => "A bit that no variant has is a fault.",
        (false, true) => "Names that no variant has are left out.",
        (false, false) => "Bits that no variant has are left out.",
    }
}

/// Writes the four functions. They name `Result` and `String` by their paths, since the module may have types with these
/// names.
pub(super) fn write_json(out: &mut String, subject: &Subject, serialized: Serialized) -> Writing {
    let form = Form::of(serialized, &subject.element.plan);
    let (own, guard) = (subject.name, guard_of(subject));
    let (name, plain, cited, definitions, faults) = (
        form.name(),
        form.plain(),
        form.cited(),
        form.definitions(),
        form.faults(),
    );
    write!(
        out,
        "\n\n{guard}impl {own} {{
{cited}
    ghost use Rattle.serde_json.specs.Read.{{read}};
    ghost use Rattle.serde_json.specs.View.{{view}};
    ghost use Rattle.enumset.specs.{definitions}.{{{name}_value, set_of_{name}}};
    ghost use Rattle.enumset.specs.JsonPlain.{{IsPlain{plain}}};
    ghost use Rattle.enumset.specs.JsonReads.{{value_read, IsResult, IsReadOf}};
    ghost use Rattle.enumset.specs.declared.set_json.fault.JsonFault.TheVariants.{{{faults}}};
    ghost use Rattle.enumset.specs.declared.set_json.unknown.Unknown.TheVariants as unknown;\n\n"
    )?;
    write_to_json(out, subject, form)?;
    write_from_json(out, subject, form)?;
    write_to_json_text(out, subject, form)?;
    write_from_json_text(out, subject, form)?;
    out.push('}')
}

/// Writes `to_json`.
fn write_to_json(out: &mut String, subject: &Subject, form: Form) -> Writing {
    let (name, fault) = (form.name(), form.fault());
    write!(out, "    /// The {}", form.doc())?;
    match form {
        Form::Number(width) => write!(
            out,
            " as a `u{width}`.
    ///
    /// The only fault is [`set_json::JsonFault::TooWide`], if a member is past its bits. It does not allocate."
        )?,
        Form::Words | Form::List | Form::Map => {
            out.push_str(". The only fault is\n    /// [`set_json::JsonFault::OutOfMemory`].")?;
        }
    }
    out.push_str(
        "\n    pub fn to_json(
        alloc: std::alloc::Global,
        set: &EnumSet<Self>,
    ) -> std::result::Result<serde_json::Value, set_json::JsonFault>",
    )?;
    if let Form::Number(width) = form {
        write!(
            out,
            "\n        ensures fits {{ IsOk result ↔ IsTrue (is_subset set.now (below {width})) }}"
        )?;
    }
    let (value, argument) = (form.value(subject)?, form.argument(subject)?);
    write!(
        out,
        "\n        ensures value {{ IfOk result (λ value. view value ≡ {name}_value{value}) }}
        ensures fault {{ IfErr result (λ fault. fault ≡ {fault}) }}
    {{
        set_json::to_{name}(alloc, set{argument})
    }}\n\n"
    )
}

/// Writes `from_json`.
fn write_from_json(out: &mut String, subject: &Subject, form: Form) -> Writing {
    let options = &subject.element.declaration.options;
    let (name, doc, unknown) = (form.name(), unknown_doc(options), unknown_of(options));
    let (read_by, argument) = (form.read_by(subject)?, form.argument(subject)?);
    write!(
        out,
        "    /// The set that `to_json` writes as this value. {doc}
    ///
    /// The faults are those of [`set_json::from_{name}`], in the same order. It does not allocate.
    pub fn from_json(
        value: &serde_json::Value,
    ) -> std::result::Result<EnumSet<Self>, set_json::JsonFault>
        ensures {{ result ≡ set_of_{name}
            {read_by}
            unknown.{unknown} (view value.now) }}
    {{
        set_json::from_{name}(value{argument}, set_json::Unknown::{unknown})
    }}\n"
    )
}

/// Writes `to_json_text`.
fn write_to_json_text(out: &mut String, subject: &Subject, form: Form) -> Writing {
    let (name, argument) = (form.name(), form.argument(subject)?);
    out.push_str("\n    /// The string of `to_json`'s value, without spaces. ")?;
    out.push_str(match form {
        Form::Number(_) => {
            "The faults are [`set_json::JsonFault::TooWide`],
    /// if a member is past its bits, and [`set_json::JsonFault::OutOfMemory`]."
        }
        Form::Words | Form::List | Form::Map => {
            "The only fault is\n    /// [`set_json::JsonFault::OutOfMemory`]."
        }
    })?;
    out.push_str(
        "\n    pub fn to_json_text(
        alloc: std::alloc::Global,
        set: &EnumSet<Self>,
    ) -> std::result::Result<std::string::String, set_json::JsonFault>",
    )?;
    write_text_clauses(out, subject, form)?;
    write!(
        out,
        "\n    {{
        set_json::to_{name}_text(alloc, set{argument})
    }}\n\n"
    )
}

/// Writes the clauses of `to_json_text`.
fn write_text_clauses(out: &mut String, subject: &Subject, form: Form) -> Writing {
    let (name, value) = (form.name(), form.value(subject)?);
    match form {
        Form::Number(_) => out.push_str(
            "\n        ensures text { IfOk result (λ text. string_bytes text ≡ decimal (number set.now)) }",
        )?,
        Form::Words | Form::List | Form::Map => write!(
            out,
            "\n        ensures text {{ IfOk result (λ text. string_bytes text
            ≡ compact_text ({name}_value{value})) }}"
        )?,
    }
    write!(
        out,
        "\n        ensures reads {{ IfOk result (λ text. read (string_bytes text)
            ≡ Some ({name}_value{value})) }}"
    )?;
    match form {
        Form::Number(width) => write!(
            out,
            "\n        ensures too_wide {{ (result ≡ Err TooWide) ↔ (is_subset set.now (below {width}) ≡ false) }}
        ensures fault {{ IfErr result (λ fault. (fault ≡ TooWide) ⊎ (fault ≡ OutOfMemory)) }}"
        ),
        Form::Words | Form::List | Form::Map => {
            out.push_str("\n        ensures fault { IfErr result (λ fault. fault ≡ OutOfMemory) }")
        }
    }
}

/// Writes `from_json_text`.
fn write_from_json_text(out: &mut String, subject: &Subject, form: Form) -> Writing {
    let options = &subject.element.declaration.options;
    let (name, plain) = (form.name(), form.plain());
    let (doc, unknown) = (unknown_doc(options), unknown_of(options));
    let (read_by, argument) = (form.read_by(subject)?, form.argument(subject)?);
    // A plain map has known names.
    let premise = match form {
        Form::Map => {
            format!(in subject.alloc; "\n            {read_by} text.now →\n            ")?
        }
        Form::Number(_) | Form::Words | Form::List => {
            String::from_str(subject.alloc, " text.now → ")?
        }
    };
    write!(
        out,
        "    /// What `from_json` returns of the value that this string is read as. {doc}
    ///
    /// The faults are those of [`set_json::from_{name}_text`].
    pub fn from_json_text(
        alloc: std::alloc::Global,
        text: &str,
    ) -> std::result::Result<EnumSet<Self>, set_json::JsonFault>
        ensures read {{ IsReadOf (set_of_{name}
            {read_by}
            unknown.{unknown}) text.now result }}
        ensures plain {{ IsPlain{plain}{premise}IsResult (value_read (set_of_{name}
            {read_by}
            unknown.{unknown}) text.now) result }}
    {{
        set_json::from_{name}_text(alloc, text{argument}, set_json::Unknown::{unknown})
    }}\n"
    )
}
