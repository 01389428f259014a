//! Vectors of elements.

ghost use Rattle.std.specs.Prelude.{◌≡◌, map, filter, IfOk};
ghost use Rattle.enumset.specs.Sets as set;

use enumset::{EnumSet, EnumSetType};
use std::alloc::{AllocError, Global};

/// The elements of a set that another one has, in the order of their bits.
pub fn shared_list<T: EnumSetType>(
    alloc: Global,
    members: &EnumSet<T>,
    other: &EnumSet<T>,
) -> Result<Vec<T>, AllocError>
    ensures { IfOk result (λ list. map T.elements.bit list.items
        ≡ filter (set.contains other.now) (set.ascending members.now)) }
{
    let mut list = Vec::new(alloc);
    for element in members.iter() {
        if other.contains(element) {
            list.push(element)?;
        }
    }
    Ok(list)
}
