//! What roles grant, and what a user has.

ghost use Rattle.std.specs.Prelude.{◌≡◌, ◌≤◌, ◌++◌, ◌∷◌, [], List, vec_len, vec_capacity, OnOk, OnErr};
ghost use Rattle.enumset.specs.Sets as set;
ghost use Rattle.example_permissions.specs.Policy.{role_bit, right_bit, IsAllowed};
ghost use Rattle.example_permissions.specs.declared.policy.Grant.{Grant};
ghost use Rattle.example_permissions.specs.declared.policy.User.{User};

use crate::rights::Right;
use crate::roles::Role;
use enumset::EnumSet;
use std::alloc::AllocError;

/// Rights that are granted to a role.
#[derive(Clone, Copy, Debug)]
pub struct Grant {
    pub role: Role,
    pub rights: EnumSet<Right>,
}

/// What is known of a user.
#[derive(Clone, Copy, Debug)]
pub struct User {
    pub roles: EnumSet<Role>,
    pub denied: EnumSet<Right>,
}

/// Grants rights to a role. All that was allowed still is. If memory is refused, nothing changes.
pub fn add_grant(grants: &mut Vec<Grant>, grant: Grant) -> Result<(), AllocError>
    ensures granted { OnOk result (grants.new.items ≡ grants.old.items ++ (grant ∷ [])) }
    ensures unchanged { OnErr result (grants.new.items ≡ grants.old.items) }
    ensures full { OnErr result (vec_capacity grants.old ≤ vec_len grants.old) }
    ensures never_less { (user : User) (asked : set.BitSet) →
        IsAllowed grants.old.items user asked → IsAllowed grants.new.items user asked }
{
    grants.push(grant)?;
    Ok(())
}

// The program reads its users from a policy and never changes them. These calls carry the theorems `never_less` and
// `never_more`.
impl User {
    /// Gives the user a role. All that was allowed still is.
    // `on_roles` is about this policy: what more roles grant, and fewer.
    #[tactic(auto, using(crate::proofs::Allowed::on_roles))]
    pub fn assign(&mut self, role: Role)
        ensures roles { self.new
            ≡ record self.old { roles = set.insert self.old.roles (role_bit role) } }
        ensures never_less { (grants : List Grant) (asked : set.BitSet) →
            IsAllowed grants self.old asked → IsAllowed grants self.new asked }
    {
        self.roles.insert(role);
    }

    /// Takes a role from the user. Nothing new is allowed afterwards.
    // `on_roles`: see `assign`.
    #[tactic(auto, using(crate::proofs::Allowed::on_roles))]
    pub fn revoke(&mut self, role: Role)
        ensures roles { self.new
            ≡ record self.old { roles = set.remove self.old.roles (role_bit role) } }
        ensures never_more { (grants : List Grant) (asked : set.BitSet) →
            IsAllowed grants self.new asked → IsAllowed grants self.old asked }
    {
        self.roles.remove(role);
    }

    /// Denies the user a right, whatever the roles grant. Nothing new is allowed afterwards.
    // `members`: the second clause is about any request, right by right.
    #[tactic(auto, using(enumset::specs::Sets::members))]
    pub fn deny(&mut self, right: Right)
        ensures denied { self.new
            ≡ record self.old { denied = set.insert self.old.denied (right_bit right) } }
        ensures never_more { (grants : List Grant) (asked : set.BitSet) →
            IsAllowed grants self.new asked → IsAllowed grants self.old asked }
    {
        self.denied.insert(right);
    }
}
