//! Writes the names of variants, for JSON and for `Display`.

use super::layout::{list_of, list_of_names, write_call, write_head};
use super::{Subject, Writing};
use crate::plan::Options;

/// The variant of `Unknown` that reading JSON takes.
pub(super) fn unknown_of(options: &Options) -> &'static str {
    match options.denies_unknown {
        true => "Refuse",
        false => "Drop",
    }
}

/// Writes the implementation of `EnumSetNames`.
pub(super) fn write_names(out: &mut String, subject: &Subject) -> Writing {
    let (alloc, name, element) = (subject.alloc, subject.name, subject.element);
    let mut items = vec![in alloc; format!(in alloc; "{name}:")?]?;
    let (variants, names) = (
        &element.declaration.variants,
        &element.declaration.json_names,
    );
    for (variant, json) in variants.iter().zip(names.iter()) {
        let own = variant.name;
        items.push(match json.as_str() == own {
            true => String::from_str(alloc, own)?,
            false => format!(in alloc; "{own} \"{json}\"")?,
        })?;
    }
    let names = list_of(alloc, 80, names, "codes \"", "\"")?;
    let unfolded = if element.is_in_place() {
        "place"
    } else {
        "listed_bit"
    };
    let line = format!(in alloc; "#[tactic(auto, unfolding(enumset::specs::Sets::{unfolded}))]\n")?;
    write_head(out, subject, line.as_str(), "EnumSetNames")?;
    write!(
        out,
        "    ghost use Rattle.std.specs.Prelude.{{codes, ◌∷◌, []}};\n
    ghost names = {{ {names} }};\n
    fn names() -> &'static [(Self, &'static str)] {{\n"
    )?;
    write_call(out, alloc, "names_of!", &items)?;
    out.push_str("    }\n\n    ghost named = { tt };\n}")
}

/// Writes the implementation of `Display`.
pub(super) fn write_display(out: &mut String, subject: &Subject) -> Writing {
    let (name, crate_name, module) = (subject.name, subject.crate_name, subject.module);
    let variants = &subject.element.declaration.variants;
    let list = list_of_names(subject, 90, "codes \"", "\"")?;
    let doc = "/// The name of the variant.\n";
    write_head(out, subject, doc, "std::fmt::Display")?;
    write!(
        out,
        "    ghost use Rattle.std.specs.Prelude.{{Some, ◌∷◌, [], codes}};
    ghost use Rattle.std.specs.List.{{slice_index_or}};
    ghost use denote.Enum.Declared.{{tag_of}};
    ghost use Rattle.{crate_name}.specs.contracts.{module}.{name}.{{the_type}};\n
    ghost output = {{ λ v. Some (slice_index_or
        ({list})
        (tag_of the_type v) []) }};\n
    fn fmt<W: std::fmt::Write>(&self, f: &mut std::fmt::Formatter<W>) -> std::fmt::Result {{\n"
    )?;
    if variants.is_empty() {
        return out.push_str("        match *self {}\n    }\n}");
    }
    out.push_str("        match self {\n")?;
    for variant in variants {
        let name = variant.name;
        write!(
            out,
            "            Self::{name} => f.write_str(\"{name}\"),\n"
        )?;
    }
    out.push_str("        }\n    }\n}")
}
