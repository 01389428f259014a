//! Iterators and closures over sets.

ghost use Rattle.std.specs.Prelude.{◌≡◌, ◌≤◌, ◌<◌, ◌∷◌, [], ℕ, not, true, IfSome, IfNone, count_by, option_map};
ghost use Rattle.std.specs.List.{list_all};
ghost use Rattle.enumset.specs.Sets as set;
ghost use Rattle.enumset.specs.Sets.{least};
ghost use Rattle.example_set_facts.specs.Bits.{permission};

use crate::permissions::Permission;
use crate::slices::count_in;
use enumset::{EnumSet, EnumSetType};

/// Keeps the elements that another set has.
pub fn keep_present<T: EnumSetType>(members: &mut EnumSet<T>, other: &EnumSet<T>)
    ensures { members.new ≡ set.intersection members.old other.now }
{
    members.retain(|t| other.contains(t));
}

/// The first permission of a set, by a step of its iterator.
pub fn first_granted(granted: EnumSet<Permission>) -> Option<Permission>
    ensures { option_map permission result ≡ least granted }
{
    granted.iter().next()
}

/// The first element from a bit on.
pub fn found_from<T: EnumSetType>(members: &EnumSet<T>, start: u32) -> Option<T>
    ensures member { IfSome result (λ t. set.contains members.now (T.elements.bit t) ≡ true) }
    ensures later { IfSome result (λ t. start ≤ T.elements.bit t) }
    ensures least { IfSome result (λ t. (q : ℕ) → set.contains members.now q ≡ true
        → start ≤ q → T.elements.bit t ≤ q) }
    ensures none { IfNone result ((q : ℕ) → set.contains members.now q ≡ true → q < start) }
{
    members.iter().find(|t| EnumSet::bit_index(*t) >= start)
}

/// The first element from a bit on, else the first element.
pub fn found_round<T: EnumSetType>(members: &EnumSet<T>, start: u32) -> Option<T>
    ensures member { IfSome result (λ t. set.contains members.now (T.elements.bit t) ≡ true) }
    ensures later { IfSome result (λ t. (q : ℕ) → set.contains members.now q ≡ true → start ≤ q
        → (start ≤ T.elements.bit t) × (T.elements.bit t ≤ q)) }
    ensures first { IfSome result (λ t. T.elements.bit t < start → (q : ℕ) → set.contains members.now q ≡ true
        → (q < start) × (T.elements.bit t ≤ q)) }
    ensures none { IfNone result (members.now ≡ set.empty) }
{
    match found_from(members, start) {
        Some(later) => Some(later),
        None => members.first(),
    }
}

/// How many of three permissions are granted.
pub fn count_of_three(granted: EnumSet<Permission>) -> usize
    ensures { result ≡ count_by (set.contains granted)
        (permission Permission.Read ∷ permission Permission.Write ∷ permission Permission.Share ∷ []) }
{
    count_in(
        &[Permission::Read, Permission::Write, Permission::Share],
        &granted,
    )
}

/// Whether two permissions are both granted.
pub fn has_both(granted: EnumSet<Permission>) -> bool
    ensures { result
        ≡ list_all (λ q. set.contains granted q) (permission Permission.Read ∷ permission Permission.Write ∷ []) }
{
    [Permission::Read, Permission::Write]
        .iter()
        .all(|t| granted.contains(*t))
}

/// Whether another set lacks each element of a set.
pub fn lacks_each<T: EnumSetType>(one: &EnumSet<T>, other: &EnumSet<T>) -> bool
    ensures { result ≡ list_all (λ q. not (set.contains other.now q)) (set.ascending one.now) }
{
    !one.iter().any(|t| other.contains(t))
}
