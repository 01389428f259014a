//! Writes an enum and the implementations that make it an element type.

use super::declaration::write_enum;
use super::json::write_json;
use super::layout::{list_of, list_of_names, write_call, write_head};
use super::names::{write_display, write_names};
use super::operators::write_operators;
use super::parsing::write_from_str;
use super::{Subject, Writing};
use crate::plan::Store;

/// What a set is stored in, as text of a module.
#[derive(Drop)]
struct StoreText {
    type_name: String,
    /// The set of all bits in a contract.
    model: String,
    /// The set of all bits in code.
    value: String,
}

/// Writes the enum, and the implementations that make it an element type.
pub(super) fn write_element_type(out: &mut String, subject: &Subject) -> Writing {
    let options = &subject.element.declaration.options;
    write_enum(out, subject.alloc, subject.element)?;
    write_impl(out, subject)?;
    if subject.element.is_narrow() {
        write_head(out, subject, "", "EnumSetTypeWithRepr")?;
        out.push_str("    ghost use Rattle.std.proofs.Common.{rules};\n\n")?;
        out.push_str("    ghost narrow = { Prim.search rules };\n}")?;
    }
    if options.has_names() {
        write_names(out, subject)?;
    }
    if options.has_display {
        write_display(out, subject)?;
    }
    if options.is_parsed {
        write_from_str(out, subject)?;
    }
    if !options.leaves_out_operators {
        write_operators(out, subject)?;
    }
    match options.serialized {
        Some(serialized) => write_json(out, subject, serialized),
        None => Ok(()),
    }
}

/// Writes the implementation of `EnumSetType`.
fn write_impl(out: &mut String, subject: &Subject) -> Writing {
    let (name, crate_name, module) = (subject.name, subject.crate_name, subject.module);
    let library = subject.library.cited();
    let is_wide = matches!(subject.element.plan.store, Store::Words(_));
    let law = if is_wide { "words" } else { "integer" };
    let in_place = subject.element.is_in_place();
    let made = if in_place { "in_place" } else { "with_bits" };
    let (more, before, after) = match in_place {
        true => (", lawful_in_place", "lawful_in_place the_type (", ")"),
        false => ("", "", ""),
    };
    let has_values = subject.element.declaration.options.has_display;
    write_head(out, subject, "", "EnumSetType")?;
    if !in_place || has_values || is_wide {
        out.push_str("    ghost use Rattle.std.specs.Prelude.{◌∷◌, []};\n")?;
    }
    write!(
        out,
        "    ghost use Rattle.{library}.specs.Sets.{{{made}, lawful_in_{law}{more}}};
    ghost use Rattle.{crate_name}.specs.contracts.{module}.{name}.{{the_type}};\n"
    )?;
    if has_values {
        let path = format!(in subject.alloc; "Rattle.{crate_name}.specs.declared.{module}.{name}")?;
        write!(out, "    ghost use {path}.TheVariants as variant;\n")?;
    }
    write_constants(out, subject, in_place)?;
    write_into_u32(out, subject)?;
    out.push_str("    }\n\n    fn enum_from_u32(val: u32) -> Self {\n")?;
    write_from_u32(out, subject)?;
    write!(
        out,
        "    }}\n\n    ghost lawful = {{ {before}lawful_in_{law} the_type _ tt{after} }};\n}}"
    )
}

/// Writes the type that a set is stored in, the model of the elements, and the constants.
fn write_constants(out: &mut String, subject: &Subject, in_place: bool) -> Writing {
    let (width, count) = (
        subject.element.plan.bit_width,
        subject.element.plan.variants.len(),
    );
    let StoreText {
        type_name,
        model,
        value,
    } = store_text(subject)?;
    write!(
        out,
        "\n    type Repr = {type_name};\n\n    ghost elements = {{ "
    )?;
    write_elements(out, subject, in_place)?;
    write!(
        out,
        "    ghost ALL_BITS = {{ {model} }};\n
    const ALL_BITS: {type_name} = {value};\n
    ghost BIT_WIDTH = {{ {width} }};\n
    const BIT_WIDTH: u32 = {width};\n
    ghost VARIANT_COUNT = {{ {count} }};\n
    const VARIANT_COUNT: u32 = {count};\n
    fn enum_into_u32(self) -> u32 {{\n"
    )
}

/// Writes the model of the elements, after its `{`, and under `display` the list of the variants.
fn write_elements(out: &mut String, subject: &Subject, in_place: bool) -> Writing {
    if in_place {
        out.push_str("in_place the_type };\n\n")?;
    } else {
        let bits = subject.element.plan.variants.iter().map(|named| named.bit);
        let bits: Vec<u32> = bits.collect(subject.alloc)?;
        let bits = list_of(subject.alloc, 59, &bits, "", "")?;
        write!(out, "with_bits the_type ({bits}) }};\n\n")?;
    }
    if subject.element.declaration.options.has_display {
        let names = list_of_names(subject, 79, "variant.", "")?;
        write!(out, "    ghost values = {{ {names} }};\n\n")?;
    }
    Ok(())
}

/// Writes the body of the function that converts a variant to its bit.
fn write_into_u32(out: &mut String, subject: &Subject) -> Writing {
    let variants = &subject.element.declaration.variants;
    if variants.is_empty() {
        return out.push_str("        match self {}\n");
    }
    if subject.element.are_cast() {
        return out.push_str("        self as u32\n");
    }
    out.push_str("        match self {\n")?;
    for (variant, named) in variants.iter().zip(subject.element.plan.variants.iter()) {
        write!(
            out,
            "            Self::{} => {},\n",
            variant.name, named.bit
        )?;
    }
    out.push_str("        }\n")
}

/// Writes the body of the function that converts a bit to its variant: a match over the bits, or a call of the macro
/// that makes a table.
fn write_from_u32(out: &mut String, subject: &Subject) -> Writing {
    let (alloc, name) = (subject.alloc, subject.name);
    let (variants, plan) = (&subject.element.declaration.variants, &subject.element.plan);
    let count = variants.len();
    let variants = variants.iter().zip(plan.variants.iter());
    if subject.element.is_in_table() {
        let mut items = vec![in alloc; format!(in alloc; "val, {name}:")?]?;
        for (variant, named) in variants {
            items.push(format!(in alloc; "{} {}", named.bit, variant.name)?)?;
        }
        return write_call(out, alloc, "variant_of!", &items);
    }
    out.push_str("        match val {\n")?;
    for (variant, named) in variants {
        write!(
            out,
            "            {} => Self::{},\n",
            named.bit, variant.name
        )?;
    }
    if count <= 32 {
        return out.push_str("            _ => unreachable!(),\n        }\n");
    }
    // A proof by itself handles at most 32 bits.
    write!(
        out,
        "            _ => {{
                {}::variants::is_below(val, {count});
                unreachable!()
            }}
        }}\n",
        subject.library.name()
    )
}

/// What a set is stored in, as text of a module.
fn store_text(subject: &Subject) -> Writing<StoreText> {
    let alloc = subject.alloc;
    let all = match &subject.element.plan.store {
        Store::Words(words) => words,
        Store::Integer(integer, number) => {
            return Ok(StoreText {
                type_name: format!(in alloc; "u{}", integer.width())?,
                model: number.to_string(alloc)?,
                value: format!(in alloc; "0x{number:X}")?,
            });
        }
    };
    let words = all.iter().map(|word| format!(in alloc; "0x{word:X}, "));
    let words: String = words.try_collect(alloc)?;
    let words = words.as_str().trim_end_matches(", ");
    Ok(StoreText {
        type_name: format!(in alloc; "ArrayRepr<{}>", all.len())?,
        model: list_of(alloc, 77, all, "", "")?,
        value: format!(in alloc; "ArrayRepr([{words}])")?,
    })
}
