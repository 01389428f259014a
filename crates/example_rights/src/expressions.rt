//! Sets and elements in expressions.

ghost use Rattle.std.specs.Prelude.{◌≡◌};
ghost use Rattle.enumset.specs.Sets as set;

use enumset::{EnumSet, EnumSetType};

/// The granted set with one right added and another removed.
pub fn exchanged<T: EnumSetType>(granted: EnumSet<T>, new: T, old: T) -> EnumSet<T>
    ensures { result
        ≡ set.difference (set.union granted (set.only (T.elements.bit new)))
        (set.only (T.elements.bit old)) }
{
    (granted | new) - old
}

/// Grants a right and revokes another.
pub fn exchange<T: EnumSetType>(granted: &mut EnumSet<T>, new: T, old: T)
    ensures { granted.new
        ≡ set.remove (set.insert granted.old (T.elements.bit new)) (T.elements.bit old) }
{
    *granted |= new;
    *granted -= old;
}

/// The granted set with one right added, and the granted set as it was.
pub fn after_and_before<T: EnumSetType>(granted: EnumSet<T>, right: T) -> (EnumSet<T>, EnumSet<T>)
    ensures after { result.0 ≡ set.union granted (set.only (T.elements.bit right)) }
    ensures before { result.1 ≡ granted }
{
    (granted.copied() | right, granted)
}
