//! Sets as JSON arrays of names.

ghost use Rattle.std.specs.Prelude.{◌≡◌, IfOk, IfErr};
ghost use Rattle.serde_json.specs.View.{view};
ghost use Rattle.enumset.specs.Names.{names_of};
ghost use Rattle.enumset.specs.JsonNames.{set_of_list, list_value};
ghost use Rattle.enumset.specs.declared.set_json.fault.JsonFault.TheVariants.{OutOfMemory};

use super::fault::JsonFault;
use super::names_read::NamesRead;
use super::unknown::Unknown;
use crate::names::EnumSetNames;
use enumset_sets::EnumSet;
use serde_json::Value;
use std::alloc::Global;

/// Returns the array of the names of the set's members, in ascending order of their bits. The only fault is
/// [`JsonFault::OutOfMemory`]. Rust's `enumset` writes this form under `serialize_repr = "list"`.
pub fn to_list<T: EnumSetNames>(alloc: Global, set: &EnumSet<T>) -> Result<Value, JsonFault>
    ensures value { IfOk result (λ value.
        view value ≡ list_value (names_of T.elements T.names) set.now) }
    ensures fault { IfErr result (λ fault. fault ≡ OutOfMemory) }
{
    let mut list = Vec::with_capacity(alloc, set.len())?;
    for element in set.iter() {
        list.push(Value::try_from_str(alloc, element.name())?)?;
    }
    Ok(Value::from(list))
}

/// Returns the set of the names of an array of strings, in any order. A name may be repeated.
///
/// The faults are [`JsonFault::NotAnArray`], [`JsonFault::NotAText`] of the first element that is not a string and,
/// where unknown names are refused, [`JsonFault::UnknownName`] of the first such name, tested in this order. The call
/// allocates nothing. Rust's `enumset` reads this form under `serialize_repr = "list"`.
pub fn from_list<T: EnumSetNames>(value: &Value, unknown: Unknown) -> Result<EnumSet<T>, JsonFault>
    ensures { result ≡ set_of_list (names_of T.elements T.names) unknown (view value.now) }
{
    let items = value.as_array().ok_or(JsonFault::NotAnArray)?;
    let mut names = NamesRead::new();
    for (place, item) in items.iter().enumerate() {
        let name = item.as_str().ok_or(JsonFault::NotAText(place))?;
        names.take(name.as_bytes(), true, place);
    }
    names.into_set(unknown)
}
