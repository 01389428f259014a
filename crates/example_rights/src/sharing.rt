//! What many sets have in common, and what a mixed set keeps.

ghost use Rattle.std.specs.Prelude.{◌≡◌, ◌&&◌, ℕ};
ghost use Rattle.std.specs.List.{list_all};
ghost use Rattle.enumset.specs.Sets as set;
ghost use Rattle.enumset.specs.Sets.{valid_bits, intersection_all, unknown_members};

use enumset::set::MixedEnumSet;
use enumset::{EnumSet, EnumSetType, EnumSetTypeWithRepr, laws};

/// The rights that all grants have in common: all rights, if there is no grant.
pub fn shared_by_all<T: EnumSetType>(grants: &[EnumSet<T>]) -> EnumSet<T>
    ensures { result ≡ intersection_all (valid_bits T.elements) grants.now }
{
    let mut shared = EnumSet::all();
    for granted in grants {
        shared &= granted.copied();
    }
    shared
}

/// Whether all grants have a right.
pub fn all_may<T: EnumSetType>(grants: &[EnumSet<T>], right: T) -> bool
    ensures { result ≡ list_all (λ granted. set.contains granted (T.elements.bit right)) grants.now }
{
    laws::bit_and_back::<T>();
    shared_by_all(grants).contains(right)
}

/// The rights of one grant, with those that it shares with another: its own.
pub fn with_shared<T: EnumSetType>(one: &EnumSet<T>, other: &EnumSet<T>) -> EnumSet<T>
    ensures { result ≡ one.now }
{
    one.union(one.intersection(other.copied()))
}

/// The rights that two grants have in common, bit by bit.
pub fn shared_by_two<T: EnumSetType>(one: &EnumSet<T>, other: &EnumSet<T>) -> EnumSet<T>
    ensures { (q : ℕ) → set.contains result q ≡ (set.contains one.now q && set.contains other.now q) }
{
    one.intersection(other.copied())
}

/// Grants a right instead of another. What newer peers have put into the set stays.
pub fn replaced<T: EnumSetTypeWithRepr>(rights: &mut MixedEnumSet<T>, old: T, new: T)
    ensures replaced { rights.new
        ≡ set.insert (set.remove rights.old (T.elements.bit old)) (T.elements.bit new) }
    ensures unknown { unknown_members (valid_bits T.elements) rights.new
        ≡ unknown_members (valid_bits T.elements) rights.old }
{
    laws::unknown_kept::<T>();
    rights.remove(old);
    rights.insert(new);
}
