//! Alarms that are raised and cleared.

ghost use Rattle.std.specs.Prelude.{◌≡◌, ◌↔◌, false};
ghost use Rattle.enumset.specs.Sets as set;

use enumset::{EnumSet, EnumSetType};

/// Clears alarms and raises others, and returns whether that changed anything.
pub fn update<T: EnumSetType>(
    active: &mut EnumSet<T>,
    cleared: &EnumSet<T>,
    raised: &EnumSet<T>,
) -> bool
    ensures active { active.new ≡ set.union (set.difference active.old cleared.now) raised.now }
    ensures changed { result ≡ false ↔ (active.new ≡ active.old) }
{
    let before = active.copied();
    active.remove_all(cleared.copied());
    active.insert_all(raised.copied());
    active.copied() != before
}
