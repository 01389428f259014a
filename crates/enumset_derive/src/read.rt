//! Reads the enums of a source that are to become element types.

mod attributes;
mod derives;
mod discriminants;
mod enums;
mod json_names;
mod options;
mod others;
mod variants;

use crate::fault::Reading;
use crate::items::Item;
use crate::plan::EnumDeclaration;
use crate::report::Report;
use derives::is_element_type;
use enums::read_enum;
use others::{left_out, note_inside, note_left_out};

/// The enums that derive `EnumSetType`, as far as they can be read. Faults, and what is left out, are reported.
pub fn read_enums<'a, 'b>(
    report: &mut Report,
    items: &[Item<'a, 'b>],
) -> Reading<Vec<EnumDeclaration<'a, 'b>>> {
    let mut enums = Vec::new(report.alloc);
    for item in items {
        match is_element_type(item) {
            true => enums.extend(read_enum(report, item)?)?,
            false => note_inside(report, item)?,
        }
    }
    for item in left_out(report.alloc, items)? {
        note_left_out(report, item)?;
    }
    Ok(enums)
}
