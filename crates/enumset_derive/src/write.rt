//! Writes the text of a module.

mod bits;
mod declaration;
mod element_type;
mod imports;
mod json;
mod layout;
mod names;
mod operators;
mod parsing;

use crate::Request;
use crate::element::Element;
use crate::plan::{Library, Options};
pub use bits::bits_text;
use element_type::write_element_type;
use imports::imports_of;
use std::alloc::{AllocError, Global};

/// The result of a step of writing: an error if memory runs out.
type Writing<T = ()> = Result<T, AllocError>;

type Text = Writing<String>;

/// The element type that is being written, and its module.
#[derive(Clone, Copy)]
struct Subject<'r, 's, 'a, 'b> {
    alloc: Global,
    crate_name: &'r str,
    /// The path of its module, with a dot between two names.
    module: &'r str,
    element: &'s Element<'a, 'b>,
    library: Library<'a>,
    name: &'a str,
}

/// The library that the module with these element types is over.
fn library_of<'a>(elements: &[Element<'a, '_>]) -> Library<'a> {
    match elements {
        [first, ..] => first.declaration.options.library(),
        [] => Options::default().library(),
    }
}

/// The text of the module with these doc comments and element types.
pub fn module_text(alloc: Global, request: &Request, docs: &[&str], elements: &[Element]) -> Text {
    let mut text = String::from_str(alloc, "// ")?;
    write_origin(&mut text, request, elements)?;
    text.push_str(": change the source, and write this again.\n\n")?;
    for doc in docs {
        write!(text, "{doc}\n")?;
    }
    if !docs.is_empty() {
        text.push('\n')?;
    }
    text.push_str(imports_of(alloc, elements)?.as_str())?;
    for element in elements {
        let subject = Subject {
            alloc,
            crate_name: request.crate_name,
            module: request.module.as_str(),
            element,
            library: element.declaration.options.library(),
            name: element.declaration.head.name.text,
        };
        text.push('\n')?;
        write_element_type(&mut text, &subject)?;
        text.push('\n')?;
    }
    Ok(text)
}

/// Writes what wrote a file: the arguments of the program, and the enums of its source.
fn write_origin(out: &mut String, request: &Request, elements: &[Element]) -> Writing {
    write!(
        out,
        "Written by enumset_derive {} {} from ",
        request.crate_name, request.path
    )?;
    for (index, element) in elements.iter().enumerate() {
        let separator = if index > 0 { ", " } else { "" };
        write!(out, "{separator}{}", element.declaration.head.name.text)?;
    }
    Ok(())
}
