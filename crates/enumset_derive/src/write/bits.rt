//! Writes the terms of contracts for the bits of variants, and for sets in JSON that consist of names.

use super::layout::list_of;
use super::names::unknown_of;
use super::{Text, Writing, library_of, write_origin};
use crate::Request;
use crate::element::Element;
use crate::plan::Options;
use enumset_source::Serialized;
use std::alloc::Global;

/// What the terms for sets in JSON import besides the definitions that read them.
const OF_JSON: &str = "use Rattle.enumset.specs.Names.{Names, names_of}
use Rattle.enumset.specs.JsonReads.{value_read}
use Rattle.enumset.specs.declared.set_json.fault.JsonFault.{JsonFault}
use Rattle.enumset.specs.declared.set_json.unknown.Unknown.TheVariants as unknown
use Rattle.serde_json.specs.Data.{Data}\n";

/// The names that a file may import. An enum with such a name has another one in the file.
const IMPORTED: [&str; 7] = [
    "BitSet",
    "Data",
    "JsonFault",
    "List",
    "Names",
    "Option",
    "Result",
];

/// The names of one element type in the file.
#[derive(Drop)]
struct Terms {
    /// What follows `bit`, `names` or `set`: nothing, or if there are several enums, `_of_` and the name of this one.
    suffix: String,
    /// The name of the enum in the model of its elements, and how it is imported.
    subject: String,
    import: String,
    /// The name of the type, and how it is imported.
    type_name: String,
    type_import: String,
}

impl Terms {
    /// The terms of the enum with this name, where `count` is the number of enums.
    fn of(alloc: Global, name: &str, count: usize) -> Writing<Terms> {
        let (type_name, type_import) = match IMPORTED.contains(&name) {
            true => (
                format!(in alloc; "Own{name}")?,
                format!(in alloc; "{name} as Own{name}")?,
            ),
            false => (
                String::from_str(alloc, name)?,
                String::from_str(alloc, name)?,
            ),
        };
        let lower = name.to_ascii_lowercase(alloc)?;
        let (suffix, subject, import) = match count {
            1 => (
                String::new(alloc),
                String::from_str(alloc, "the_type")?,
                String::from_str(alloc, "the_type")?,
            ),
            _ => (
                format!(in alloc; "_of_{lower}")?,
                format!(in alloc; "the_{lower}")?,
                format!(in alloc; "the_type as the_{lower}")?,
            ),
        };
        Ok(Terms {
            suffix,
            subject,
            import,
            type_name,
            type_import,
        })
    }

    /// The model of the elements of the enum.
    fn elements(&self, alloc: Global, element: &Element) -> Text {
        if element.is_in_place() {
            return format!(in alloc; "in_place {}", self.subject);
        }
        let bits = element.plan.variants.iter().map(|named| named.bit);
        let bits: Vec<u32> = bits.collect(alloc)?;
        let bits = list_of(alloc, 80, &bits, "", "")?;
        format!(in alloc; "with_bits {} ({bits})", self.subject)
    }
}

/// The text of a file in `specs/` with terms for clauses over each enum that exists not only for tests: the bit of a
/// variant, and if sets in JSON consist of names, these names, and the set that a reader makes of a value or of a text.
pub fn bits_text(alloc: Global, request: &Request, elements: &[Element]) -> Text {
    let mut text = String::from_str(alloc, "-- ")?;
    write_origin(&mut text, request, elements)?;
    text.push_str(": change the source, and write this again.\n")?;
    let count = elements
        .iter()
        .filter(|element| element.has_terms())
        .count();
    if count == 0 {
        return Ok(text);
    }
    write_imports(&mut text, elements)?;
    for element in elements {
        if element.has_terms() {
            let terms = Terms::of(alloc, element.declaration.head.name.text, count)?;
            write_own_imports(&mut text, request, element, &terms)?;
        }
    }
    for element in elements {
        if element.has_terms() {
            let terms = Terms::of(alloc, element.declaration.head.name.text, count)?;
            write_terms(&mut text, alloc, element, &terms)?;
        }
    }
    Ok(text)
}

/// Writes the imports of an enum.
fn write_own_imports(
    out: &mut String,
    request: &Request,
    element: &Element,
    terms: &Terms,
) -> Writing {
    let (crate_name, module) = (request.crate_name, &request.module);
    let (name, import, type_import) = (
        element.declaration.head.name.text,
        &terms.import,
        &terms.type_import,
    );
    write!(
        out,
        "use Rattle.{crate_name}.specs.contracts.{module}.{name}.{{{import}}}
use Rattle.{crate_name}.specs.declared.{module}.{name}.{{{type_import}}}\n"
    )
}

/// Writes the terms of an enum.
fn write_terms(out: &mut String, alloc: Global, element: &Element, terms: &Terms) -> Writing {
    let model = terms.elements(alloc, element)?;
    let (suffix, type_name) = (&terms.suffix, &terms.type_name);
    write!(
        out,
        "\nabbrev pub bit{suffix} : {type_name} → ℕ\nbit{suffix} v = ({model}).bit v\n"
    )?;
    let options = &element.declaration.options;
    let Some(reader) = reader_of(options) else {
        return Ok(());
    };
    let names = list_of(
        alloc,
        100,
        &element.declaration.json_names,
        "codes \"",
        "\"",
    )?;
    let unknown = unknown_of(options);
    write!(
        out,
        "\n-- the names in JSON
abbrev pub names{suffix} : Names
names{suffix} = names_of ({model})
    ({names})\n
-- the set that `from_json` returns of a value, or the fault
abbrev pub set{suffix}_read : Data → Result BitSet JsonFault
set{suffix}_read = {reader} names{suffix} unknown.{unknown}\n
-- the same of a text, or `None` if it is not JSON
abbrev pub set{suffix}_in : List ℕ → Option (Result BitSet JsonFault)
set{suffix}_in text = value_read set{suffix}_read text\n"
    )
}

/// The name of the definition that reads sets of names from JSON, if the option `serialize_repr` asks for names.
fn reader_of(options: &Options) -> Option<&'static str> {
    match options.serialized {
        Some(Serialized::List) => Some("set_of_list"),
        Some(Serialized::Map) => Some("set_of_map"),
        _ => None,
    }
}

/// Writes the imports that do not depend on the names of the enums.
fn write_imports(out: &mut String, elements: &[Element]) -> Writing {
    let (mut has_lists, mut has_maps, mut are_in_place, mut are_listed) = (
        false, false, false, false,
    );
    for element in elements {
        if element.has_terms() {
            let form = element.declaration.options.serialized;
            has_lists |= matches!(form, Some(Serialized::List));
            has_maps |= matches!(form, Some(Serialized::Map));
            are_in_place |= element.is_in_place();
            are_listed |= !element.is_in_place();
        }
    }
    let readers = match (has_lists, has_maps) {
        (true, true) => Some("set_of_list, set_of_map"),
        (true, false) => Some("set_of_list"),
        (false, true) => Some("set_of_map"),
        (false, false) => None,
    };
    out.push_str("use Rattle.std.specs.Prelude.{ℕ")?;
    out.push_str(match (readers, are_listed) {
        (Some(_), _) => ", List, ◌∷◌, [], codes, Option, Result}\n",
        (None, true) => ", ◌∷◌, []}\n",
        (None, false) => "}\n",
    })?;
    let library = library_of(elements).cited();
    let sets = if readers.is_some() { "BitSet, " } else { "" };
    let models = match (are_in_place, are_listed) {
        (true, true) => "in_place, with_bits",
        (true, false) => "in_place",
        (false, _) => "with_bits",
    };
    write!(out, "use Rattle.{library}.specs.Sets.{{{sets}{models}}}\n")?;
    if let Some(readers) = readers {
        write!(out, "use Rattle.enumset.specs.JsonNames.{{{readers}}}\n")?;
        out.push_str(OF_JSON)?;
    }
    Ok(())
}
