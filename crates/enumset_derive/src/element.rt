//! The element types of a source: its enums with their plans.

use crate::fault::{Fault, Reading, Reason};
use crate::plan::{
    EnumDeclaration, Implied, Library, NamedVariant, Plan, Store, discriminant_after,
    discriminant_of, plan_enum,
};
use crate::report::Report;
use enumset_source::{Number, Place, Token};
use std::alloc::Global;
use std::collections::{BTreeMap, BTreeSet};

const DROPPED: &str =
    "left out: the discriminants of this enum, since this one is outside -2^63 to 2^63 - 1; \
    `as` returns a variant's place";

const ORDERED: &str =
    "this discriminant is outside -2^63 to 2^63 - 1, so those of this enum are left out, and a \
    derived order is that of the places: write `PartialOrd` and `Ord` by hand";

const OTHER_CRATE: &str = "all enums of a source must have the same `crate_name`";

const TAKEN: &str = "the module imports this name from `enumset`: choose another name";

const ERROR_TAKEN: &str =
    "under `parse` the error of another enum has this name: choose another name";

const NO_TABLE: &str =
    "more than 16 variants whose bits are not their places need `enumset`: remove this `crate_name`";

/// The names of types that a module may import.
const IMPORTED: [&str; 5] = [
    "EnumSet",
    "EnumSetNames",
    "EnumSetType",
    "EnumSetTypeWithRepr",
    "ArrayRepr",
];

/// An enum that is to be an element type, with its plan.
#[derive(Drop)]
pub struct Element<'a, 'b> {
    pub declaration: EnumDeclaration<'a, 'b>,
    pub plan: Plan,
    /// Whether the written enum keeps its discriminants.
    pub has_discriminants: bool,
}

/// Plans the enums as element types. Their faults are reported, and those of several enums together.
pub fn elements_of<'a, 'b>(
    report: &mut Report,
    enums: Vec<EnumDeclaration<'a, 'b>>,
) -> Reading<Vec<Element<'a, 'b>>> {
    test_names(report, &enums)?;
    test_crate_names(report, &enums)?;
    let mut elements = Vec::new(report.alloc);
    for declaration in enums {
        let past = past_place(&declaration);
        if let Some(place) = past {
            test_order(report, &declaration, place)?;
        }
        match plan_enum(report.alloc, &declaration)? {
            Ok(plan) => {
                let element = Element {
                    declaration,
                    plan,
                    has_discriminants: past.is_none(),
                };
                test_table(report, &element)?;
                elements.push(element)?;
            }
            Err(faults) => report.faults.extend(faults)?,
        }
    }
    Ok(elements)
}

/// Reports a table of variants over a library that has no macro for it.
fn test_table(report: &mut Report, element: &Element) -> Reading {
    match element.declaration.options.library {
        Some((Library::SetsAlone, place)) if element.is_in_table() => {
            report.fault(Reason::Text(NO_TABLE).at(place))
        }
        _ => Ok(()),
    }
}

/// The place of the first discriminant that Rattle does not allow: it has to be from -2^63 to 2^63 - 1.
fn past_place(declaration: &EnumDeclaration) -> Option<Place> {
    let mut implied = Implied::FIRST;
    for variant in &declaration.variants {
        let number = discriminant_of(variant, implied);
        implied = discriminant_after(number);
        match number {
            Implied::Number(number) if is_past(number) => return Some(variant.number_place()),
            _ => {}
        }
    }
    None
}

/// Whether Rattle does not allow this discriminant.
fn is_past(number: Number) -> bool {
    match number {
        Number::Natural(number) => number >= 1 << 63,
        Number::Negative(number) => number > 1 << 63,
    }
}

/// Notes that the discriminants are left out, since the one at this place is not allowed. It is a fault if the enum
/// derives an order.
fn test_order(report: &mut Report, declaration: &EnumDeclaration, place: Place) -> Reading {
    report.remark(place, DROPPED)?;
    match (declaration.derive("PartialOrd"), declaration.derive("Ord")) {
        (None, None) => Ok(()),
        _ => report.fault(Reason::Text(ORDERED).at(place)),
    }
}

/// Reports names that differ only in case, and names that a module imports or gives to the errors of `parse`.
fn test_names(report: &mut Report, enums: &[EnumDeclaration]) -> Reading {
    let errors = errors_of(report.alloc, enums)?;
    let mut names: BTreeMap<String, &Token> = BTreeMap::new(report.alloc);
    for declaration in enums {
        let name = &declaration.head.name;
        let key = name.text.to_ascii_lowercase(report.alloc)?;
        if errors.contains(&key) {
            report.fault(Fault::at(name, ERROR_TAKEN))?;
        }
        match names.insert(key, name)? {
            Some(first) if first.is(name.text) => {
                report.fault(Reason::NameTwice(first.place).at(name.place))?;
            }
            Some(first) => report.fault(Reason::OtherCase(first.place).at(name.place))?,
            None => {}
        }
        if IMPORTED.contains(&name.text) {
            report.fault(Fault::at(name, TAKEN))?;
        }
    }
    Ok(())
}

/// The names of the errors of `parse`, in lowercase.
fn errors_of(alloc: Global, enums: &[EnumDeclaration]) -> Reading<BTreeSet<String>> {
    let mut errors = BTreeSet::new(alloc);
    for declaration in enums {
        if declaration.options.is_parsed {
            let error = format!(in alloc; "parse{}error", declaration.head.name.text)?;
            errors.insert(error.as_str().to_ascii_lowercase(alloc)?)?;
        }
    }
    Ok(errors)
}

/// Reports enums that are over another library than the first enum.
fn test_crate_names(report: &mut Report, enums: &[EnumDeclaration]) -> Reading {
    let [first, others @ ..] = enums else {
        return Ok(());
    };
    for other in others {
        if other.options.library().name() != first.options.library().name() {
            let place = match other.options.library {
                Some((_, place)) => place,
                None => other.head.name.place,
            };
            report.fault(Reason::Text(OTHER_CRATE).at(place))?;
        }
    }
    Ok(())
}

impl Element<'_, '_> {
    /// The imports from `enumset` that a module may need, in order, each with whether this element type needs it.
    pub fn imports(&self) -> [(bool, &'static str); 8] {
        let options = &self.declaration.options;
        let has_names = options.has_names();
        let has_form = options.serialized.is_some();
        let is_wide = matches!(self.plan.store, Store::Words(_));
        [
            (has_form || !options.leaves_out_operators, "EnumSet"),
            (has_names, "EnumSetNames"),
            (true, "EnumSetType"),
            (self.is_narrow(), "EnumSetTypeWithRepr"),
            (is_wide, "internal::ArrayRepr"),
            (has_names, "names_of"),
            (has_form, "set_json"),
            (self.is_in_table(), "variant_of"),
        ]
    }

    /// Whether it has terms for clauses: not if it exists only for tests.
    pub fn has_terms(&self) -> bool {
        !self.declaration.head.is_for_tests
    }

    /// Whether a set is stored in at most 128 bits.
    pub fn is_narrow(&self) -> bool {
        !matches!(&self.plan.store, Store::Words(words) if words.len() > 2)
    }

    /// Whether a table has the variant of each bit: if there are more than sixteen variants, and the bit of some
    /// variant is not its place.
    pub fn is_in_table(&self) -> bool {
        self.plan.variants.len() > 16 && !self.are_places()
    }

    /// Whether the bit of each variant is its place.
    fn are_places(&self) -> bool {
        let mut variants = self.plan.variants.iter().enumerate();
        variants.all(|(place, named)| named.bit as usize == place)
    }

    /// Whether the bit of each variant is the number that `as` returns.
    pub fn are_cast(&self) -> bool {
        let is_cast = |named: &NamedVariant| named.number == Number::Natural(u128::from(named.bit));
        match self.has_discriminants {
            true => self.plan.variants.iter().all(is_cast),
            false => self.are_places(),
        }
    }

    /// Whether the bit of each variant is both its place and the number that `as` returns.
    pub fn is_in_place(&self) -> bool {
        self.are_cast() && self.are_places()
    }
}
