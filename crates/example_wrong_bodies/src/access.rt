//! Permissions that are granted, denied and asked for.

ghost use Rattle.std.specs.Prelude.{◌≡◌, ◌↔◌, ◌≤◌, ℕ, true, false, IfSome, IfNone};
ghost use Rattle.enumset.specs.Sets as set;
ghost use Rattle.example_wrong_bodies.specs.Permissions.{permission};

use crate::permissions::Permission;
use enumset::EnumSet;

/// Whether everything that is asked for is granted, and none of it denied.
pub fn is_allowed(
    granted: EnumSet<Permission>,
    denied: EnumSet<Permission>,
    asked: EnumSet<Permission>,
) -> bool
    ensures { result ≡ true
        ↔ (set.is_subset asked granted ≡ true) × (set.is_disjoint asked denied ≡ true) }
{
    (granted - denied).is_superset(asked)
}

/// The first permission that is asked for and not allowed.
pub fn first_refused(allowed: EnumSet<Permission>, asked: EnumSet<Permission>) -> Option<Permission>
    ensures asked { IfSome result (λ p. set.contains asked (permission p) ≡ true) }
    ensures refused { IfSome result (λ p. set.contains allowed (permission p) ≡ false) }
    ensures first { IfSome result (λ p. (q : ℕ) → set.contains asked q ≡ true
        → set.contains allowed q ≡ false → permission p ≤ q) }
    ensures none { IfNone result (set.is_subset asked allowed ≡ true) }
{
    (asked - allowed).first()
}

/// The permissions that are requested and not granted.
pub fn missing(granted: EnumSet<Permission>, requested: EnumSet<Permission>) -> EnumSet<Permission>
    ensures { result ≡ set.difference requested granted }
{
    requested - granted
}
