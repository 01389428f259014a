//! A test of elements that users write, and sets by it.

ghost use Rattle.std.specs.Prelude.{◌≡◌, not};
ghost use Rattle.enumset.specs.Sets as set;
ghost use Rattle.example_set_facts.specs.Bits.{permission, dangerous_bits};

use crate::permissions::Permission;
use enumset::EnumSet;

/// Whether a permission lets a user change or lose what others wrote.
pub fn is_dangerous(asked: Permission) -> bool
    ensures { result ≡ set.contains dangerous_bits (permission asked) }
{
    matches!(asked, Permission::Write | Permission::Delete)
}

/// The dangerous ones of a user's permissions, collected one by one.
pub fn dangerous(granted: EnumSet<Permission>) -> EnumSet<Permission>
    ensures { result ≡ set.intersection granted dangerous_bits }
{
    let mut found = EnumSet::new();
    for asked in granted {
        if is_dangerous(asked) {
            found.insert(asked);
        }
    }
    found
}

/// Keeps the permissions that are not dangerous.
pub fn keep_harmless(granted: &mut EnumSet<Permission>)
    ensures { granted.new ≡ set.difference granted.old dangerous_bits }
{
    granted.retain(|asked| !is_dangerous(asked));
}

/// Whether one of a user's permissions is dangerous.
pub fn has_dangerous(granted: EnumSet<Permission>) -> bool
    ensures { result ≡ not (set.is_disjoint granted dangerous_bits) }
{
    granted.iter().any(is_dangerous)
}

/// How many of a user's permissions are dangerous.
// `decided`: a count by a test that is a function.
#[tactic(auto, using(enumset::specs::Sets::decided))]
pub fn dangerous_count(granted: EnumSet<Permission>) -> usize
    ensures { result ≡ set.len (set.intersection granted dangerous_bits) }
{
    granted.iter().filter(|asked| is_dangerous(*asked)).count()
}
