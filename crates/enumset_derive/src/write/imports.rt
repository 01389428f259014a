//! Writes the imports of a module.

use super::{Text, library_of};
use crate::element::Element;
use std::alloc::Global;
use std::collections::BTreeSet;

/// The imports of a module from `enumset`.
pub(super) fn imports_of(alloc: Global, elements: &[Element]) -> Text {
    let mut lines = String::new(alloc);
    let mut names: BTreeSet<&str> = BTreeSet::new(alloc);
    for element in elements {
        for (is_needed, path) in element.imports() {
            if is_needed {
                names.insert(path)?;
            }
        }
    }
    let library = library_of(elements);
    if library.is_sets_alone() && names.remove("internal::ArrayRepr") {
        lines.push_str("use enumset_array::ArrayRepr;\n")?;
    }
    if !names.is_empty() {
        let names: Vec<&str> = names.into_iter().collect(alloc)?;
        let names = names.join(alloc, ", ")?;
        write!(lines, "use {}::{{{names}}};\n", library.name())?;
    }
    Ok(lines)
}
