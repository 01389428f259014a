//! Sets as JSON objects of names with booleans.

ghost use Rattle.std.specs.Prelude.{◌≡◌, IfOk, IfErr};
ghost use Rattle.serde_json.specs.View.{view};
ghost use Rattle.enumset.specs.Names.{names_of};
ghost use Rattle.enumset.specs.JsonNames.{set_of_map, map_value};
ghost use Rattle.enumset.specs.declared.set_json.fault.JsonFault.TheVariants.{OutOfMemory};

use super::fault::JsonFault;
use super::names_read::NamesRead;
use super::unknown::Unknown;
use crate::names::EnumSetNames;
use enumset_sets::EnumSet;
use serde_json::{Map, Value, put};
use std::alloc::Global;

/// Returns an object with the name of each of the set's members and `true`. The only fault is
/// [`JsonFault::OutOfMemory`]. Rust's `enumset` writes this form under `serialize_repr = "map"`.
pub fn to_map<T: EnumSetNames>(alloc: Global, set: &EnumSet<T>) -> Result<Value, JsonFault>
    ensures value { IfOk result (λ value.
        view value ≡ map_value (names_of T.elements T.names) set.now) }
    ensures fault { IfErr result (λ fault. fault ≡ OutOfMemory) }
{
    let mut members = Map::new(alloc);
    for element in set.iter() {
        put(&mut members, alloc, element.name(), Value::from(true))?;
    }
    Ok(Value::from(members))
}

/// Returns the set of the names that have `true` in an object of booleans. A name with `false` is left out.
///
/// The faults are [`JsonFault::NotAnObject`], [`JsonFault::NotABoolean`] of the first name whose value is not a boolean
/// and, where unknown names are refused, [`JsonFault::UnknownName`] of the first such name, with `true` or with
/// `false`, tested in this order. The first is the first in the order of the names' bytes. The call allocates nothing.
/// Rust's `enumset` reads this form under `serialize_repr = "map"`.
pub fn from_map<T: EnumSetNames>(value: &Value, unknown: Unknown) -> Result<EnumSet<T>, JsonFault>
    ensures { result ≡ set_of_map (names_of T.elements T.names) unknown (view value.now) }
{
    let members = value.as_object().ok_or(JsonFault::NotAnObject)?;
    let mut names = NamesRead::new();
    for (place, (name, value)) in members.iter().enumerate() {
        let is_member = value.as_bool().ok_or(JsonFault::NotABoolean(place))?;
        names.take(name.as_bytes(), is_member, place);
    }
    names.into_set(unknown)
}
