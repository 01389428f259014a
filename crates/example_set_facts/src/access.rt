//! Permissions with lists of what is denied.

ghost use Rattle.std.specs.Prelude.{◌≡◌, ◌↔◌, ◌&&◌, ◌||◌, ℕ, not, true, false, if◌then◌else◌};
ghost use Rattle.enumset.specs.Sets as set;
ghost use Rattle.enumset.specs.Sets.{valid_bits};
ghost use Rattle.example_set_facts.specs.Bits.{permission};

use crate::permissions::Permission;
use enumset::{EnumSet, EnumSetType, enum_set};

/// What a user may do: what the role grants or the user was given, unless it is denied.
pub fn effective(
    granted: &EnumSet<Permission>,
    given: &EnumSet<Permission>,
    denied: &EnumSet<Permission>,
) -> EnumSet<Permission>
    ensures each { (q : ℕ) → set.contains result q
        ≡ ((set.contains granted.now q || set.contains given.now q) && not (set.contains denied.now q)) }
    ensures parts { result ≡ set.union (set.difference granted.now denied.now)
        (set.difference given.now denied.now) }
{
    (*granted | *given) - *denied
}

/// Takes denied permissions away, and returns those that were allowed until now.
pub fn deny(allowed: &mut EnumSet<Permission>, denied: EnumSet<Permission>) -> EnumSet<Permission>
    ensures lost { result ≡ set.intersection allowed.old denied }
    ensures left { allowed.new ≡ set.difference allowed.old denied }
    ensures apart { set.is_disjoint allowed.new denied ≡ true }
    ensures whole { set.union allowed.new result ≡ allowed.old }
{
    let lost = *allowed & denied;
    *allowed -= denied;
    lost
}

/// What a user may pass on to another: what the other lacks, unless it must not be passed on.
pub fn delegable(
    own: &EnumSet<Permission>,
    other: &EnumSet<Permission>,
    kept_back: &EnumSet<Permission>,
) -> EnumSet<Permission>
    ensures delegable { result ≡ set.intersection (set.difference own.now other.now)
        (set.difference own.now kept_back.now) }
    ensures own { set.is_subset result own.now ≡ true }
    ensures lacking { set.is_disjoint result other.now ≡ true }
{
    *own - (*other | *kept_back)
}

/// Grants everything but one permission.
pub fn all_but(except: Permission) -> EnumSet<Permission>
    ensures but { result ≡ set.remove (valid_bits ⟦<Permission as EnumSetType>⟧.elements) (permission except) }
    ensures lacks { set.contains result (permission except) ≡ false }
{
    let mut permissions = EnumSet::all();
    permissions.remove(except);
    permissions
}

/// Grants a permission and all that it implies. If it was granted with all of these, nothing changes.
pub fn grant_with(granted: &mut EnumSet<Permission>, new: Permission, implied: EnumSet<Permission>)
    ensures granted { granted.new ≡ set.insert (set.union granted.old implied) (permission new) }
    ensures settled { set.contains granted.old (permission new) ≡ true
        → set.is_subset implied granted.old ≡ true → granted.new ≡ granted.old }
{
    granted.insert_all(implied);
    granted.insert(new);
}

/// Whether a user may read and is given nothing else.
pub fn may_only_read(granted: EnumSet<Permission>) -> bool
    ensures { result ≡ true ↔ (granted ≡ set.only (permission Permission.Read)) }
{
    granted == enum_set!(Permission::Read)
}

/// What is granted, without the permission to delete, and with those to read and to comment.
pub fn of_editor(granted: EnumSet<Permission>) -> EnumSet<Permission>
    ensures { result ≡ set.insert (set.insert (set.remove granted (permission Permission.Delete))
        (permission Permission.Comment)) (permission Permission.Read) }
{
    (granted - Permission::Delete) | enum_set!(Permission::Read | Permission::Comment)
}

/// Whether a role is stronger than another: it grants all that the other grants, and more.
pub fn is_stronger(role: &EnumSet<Permission>, other: &EnumSet<Permission>) -> bool
    ensures { result ≡ true
        ↔ (set.is_subset other.now role.now ≡ true) × (set.is_subset role.now other.now ≡ false) }
{
    role.is_superset(*other) && !role.is_subset(*other)
}

/// What is refused of a request: what is not granted, and what is denied.
pub fn refused(
    granted: &EnumSet<Permission>,
    denied: &EnumSet<Permission>,
    asked: &EnumSet<Permission>,
) -> EnumSet<Permission>
    ensures parts { result ≡ set.union (set.difference asked.now granted.now)
        (set.intersection asked.now denied.now) }
    ensures none { result ≡ set.empty → set.is_subset asked.now granted.now ≡ true }
{
    *asked - (*granted - *denied)
}

/// What a member of two groups may do: what one of them grants, unless one of them denies it.
pub fn in_groups(
    granted: &EnumSet<Permission>,
    denied: &EnumSet<Permission>,
    also_granted: &EnumSet<Permission>,
    also_denied: &EnumSet<Permission>,
) -> EnumSet<Permission>
    ensures in_groups { result
        ≡ set.union (set.difference (set.difference granted.now denied.now) also_denied.now)
        (set.difference (set.difference also_granted.now denied.now) also_denied.now) }
    ensures apart { set.is_disjoint result (set.union denied.now also_denied.now) ≡ true }
{
    (*granted | *also_granted) - (*denied | *also_denied)
}

/// Permissions that two people changed, merged: the changes of both count. If both changed one, they made the same
/// change.
pub fn merged(
    base: EnumSet<Permission>,
    ours: EnumSet<Permission>,
    theirs: EnumSet<Permission>,
) -> EnumSet<Permission>
    ensures merged { (q : ℕ) → set.contains result q ≡ (if set.contains base q
        then set.contains ours q && set.contains theirs q
        else set.contains ours q || set.contains theirs q) }
    ensures ours { set.is_subset (set.difference ours base) result ≡ true }
    ensures theirs { set.is_subset (set.difference theirs base) result ≡ true }
    ensures taken { set.is_disjoint (set.difference base ours) result ≡ true }
    ensures kept { set.is_subset (set.intersection base (set.intersection ours theirs)) result ≡ true }
{
    base ^ ((base ^ ours) | (base ^ theirs))
}

/// The permissions that come with every account.
pub fn basic() -> EnumSet<Permission>
    ensures { result ≡ set.union (set.only (permission Permission.Read))
        (set.only (permission Permission.Comment)) }
{
    enum_set!(Permission::Read | Permission::Comment)
}
