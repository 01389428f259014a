//! Decisions on requests.

ghost use Rattle.std.specs.Prelude.{◌≡◌, ◌↔◌, ◌&&◌, ℕ, not};
ghost use Rattle.std.specs.Fmt.{WritesOnOk};
ghost use Rattle.enumset.specs.Sets as set;
ghost use Rattle.example_permissions.specs.Policy.{is_granted, is_allowed, IsAllowed};
ghost use Rattle.example_permissions.specs.Decision.{missing_of};
ghost use Rattle.example_permissions.specs.Texts.{separator};

use crate::policy::{Grant, User};
use crate::rights::Right;
use crate::roles::Role;
use enumset::{EnumSet, EnumSetNames};
use std::fmt;

/// The decision on a request.
#[derive(Clone, Copy, Debug, PartialEq, Eq)]
pub enum Decision {
    /// The user may do all of it.
    Allowed,
    /// The user lacks these of the rights that were asked for.
    Denied(EnumSet<Right>),
}

/// `allowed`, or the missing rights, as `denied: Write, Share`.
impl fmt::Display for Decision {
    ghost use Rattle.std.specs.Prelude.{Some};
    ghost use Rattle.example_permissions.specs.Texts.{decision_text};

    ghost output = { λ decision. Some (decision_text decision) };

    fn fmt<W: fmt::Write>(&self, f: &mut fmt::Formatter<W>) -> fmt::Result {
        let Decision::Denied(missing) = self else {
            return f.write_str("allowed");
        };
        f.write_str("denied: ")?;
        let mut is_first = true;
        for right in *missing {
            write_separator(is_first, f)?;
            is_first = false;
            f.write_str(right.name())?;
        }
        Ok(())
    }
}

/// Writes a comma and a space, or nothing before the first name.
fn write_separator<W: fmt::Write>(is_first: bool, f: &mut fmt::Formatter<W>) -> fmt::Result
    ensures { WritesOnOk W.write_str_gives f.old result (separator is_first) f.new }
{
    if is_first {
        return Ok(());
    }
    f.write_str(", ")
}

/// Decides whether a user may do all that a request asks for.
pub fn decide(grants: &[Grant], user: &User, asked: EnumSet<Right>) -> Decision
    ensures allowed { (result ≡ Decision.Allowed) ↔ IsAllowed grants.now user.now asked }
    ensures missing { (right : ℕ) → set.contains (missing_of result) right
        ≡ (set.contains asked right && not (is_allowed grants.now user.now right)) }
{
    let missing = asked - (granted(grants, user.roles) - user.denied);
    if missing.is_empty() {
        Decision::Allowed
    } else {
        Decision::Denied(missing)
    }
}

/// All rights that are granted to roles of a set.
pub fn granted(grants: &[Grant], roles: EnumSet<Role>) -> EnumSet<Right>
    ensures { (right : ℕ) → set.contains result right ≡ is_granted grants.now roles right }
{
    let mut rights = EnumSet::new();
    for grant in grants {
        if roles.contains(grant.role) {
            rights |= grant.rights;
        }
    }
    rights
}
