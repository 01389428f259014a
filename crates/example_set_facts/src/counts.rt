//! How many members sets have.

ghost use Rattle.std.specs.Prelude.{◌≡◌, ◌≢◌, ◌↔◌, ◌<◌, ◌≤◌, ◌+◌, ◌*◌, true, false, not, nat_lt, IfSome, IfNone};
ghost use Rattle.enumset.specs.Sets as set;
ghost use Rattle.enumset.specs.Sets.{valid_bits};

use enumset::{EnumSet, EnumSetType};

/// How many of the needed elements are missing.
pub fn missing_count<T: EnumSetType>(have: &EnumSet<T>, need: &EnumSet<T>) -> usize
    ensures { result + set.len (set.intersection need.now have.now) ≡ set.len need.now }
{
    need.difference(have.copied()).len()
}

/// How many members one of two sets has and the other has not.
pub fn distance<T: EnumSetType>(one: &EnumSet<T>, other: &EnumSet<T>) -> usize
    ensures distance { result + 2 * set.len (set.intersection one.now other.now)
        ≡ set.len one.now + set.len other.now }
    ensures same { result ≡ 0 ↔ (one.now ≡ other.now) }
{
    one.symmetric_difference(other.copied()).len()
}

/// How many members two sets have together, counted without their union.
pub fn total<T: EnumSetType>(one: &EnumSet<T>, other: &EnumSet<T>) -> usize
    ensures { result ≡ set.len (set.union one.now other.now) }
{
    one.len() + other.difference(one.copied()).len()
}

/// How many members two sets have in common, counted without their intersection.
pub fn shared<T: EnumSetType>(one: &EnumSet<T>, other: &EnumSet<T>) -> usize
    ensures { result ≡ set.len (set.intersection one.now other.now) }
{
    one.len() - one.difference(other.copied()).len()
}

/// Adds an element, and returns how many there are now.
pub fn counted_insert<T: EnumSetType>(members: &mut EnumSet<T>, new: T) -> usize
    ensures inserted { members.new ≡ set.insert members.old (T.elements.bit new) }
    ensures count { result ≡ set.len members.new }
{
    let before = members.len();
    if members.insert(new) {
        before + 1
    } else {
        before
    }
}

/// Adds an element if the quota allows one more, and returns whether it does. The set stays within the quota.
pub fn insert_within<T: EnumSetType>(members: &mut EnumSet<T>, new: T, quota: usize) -> bool
    requires { set.len members.old ≤ quota }
    ensures room { result ≡ nat_lt (set.len members.old) quota }
    ensures within { set.len members.new ≤ quota }
    ensures inserted { result ≡ true → members.new ≡ set.insert members.old (T.elements.bit new) }
    ensures refused { result ≡ false → members.new ≡ members.old }
{
    let has_room = members.len() < quota;
    if has_room {
        members.insert(new);
    }
    has_room
}

/// How many members three sets have together.
pub fn total_of_three<T: EnumSetType>(
    one: &EnumSet<T>,
    two: &EnumSet<T>,
    three: &EnumSet<T>,
) -> usize
    ensures { result + set.len (set.intersection (set.union one.now two.now) three.now)
        + set.len (set.intersection one.now two.now)
        ≡ set.len one.now + set.len two.now + set.len three.now }
{
    one.union(two.copied()).union(three.copied()).len()
}

/// How many variants are absent.
pub fn absent<T: EnumSetType>(members: &EnumSet<T>) -> usize
    ensures { result + set.len members.now ≡ set.len (valid_bits T.elements) }
{
    members.complement().len()
}

/// Takes out a member, and returns how many are left.
pub fn left_after<T: EnumSetType>(members: &mut EnumSet<T>, old: T) -> usize
    requires { set.contains members.old (T.elements.bit old) ≡ true }
    ensures left { members.new ≡ set.remove members.old (T.elements.bit old) }
    ensures count { result + 1 ≡ set.len members.old }
    ensures fewer { set.len members.new < set.len members.old }
{
    members.remove(old);
    members.len()
}

/// Whether a part has no more members than the whole: always.
pub fn is_no_larger<T: EnumSetType>(part: &EnumSet<T>, whole: &EnumSet<T>) -> bool
    requires { set.is_subset part.now whole.now ≡ true }
    ensures { result ≡ true }
{
    part.len() <= whole.len()
}

/// Whether a part is the whole, told by counts.
pub fn is_whole<T: EnumSetType>(part: &EnumSet<T>, whole: &EnumSet<T>) -> bool
    requires { set.is_subset part.now whole.now ≡ true }
    ensures { result ≡ true ↔ (part.now ≡ whole.now) }
{
    part.len() == whole.len()
}

/// The member of a set that has exactly one.
pub fn sole<T: EnumSetType>(members: &EnumSet<T>) -> Option<T>
    ensures sole { IfSome result (λ t. members.now ≡ set.only (T.elements.bit t)) }
    ensures none { IfNone result (set.len members.now ≢ 1) }
{
    if members.len() == 1 {
        members.first()
    } else {
        None
    }
}

/// Whether two sets share a member, told by counts: exactly then, their union has fewer than both in sum.
pub fn must_overlap<T: EnumSetType>(one: &EnumSet<T>, other: &EnumSet<T>) -> bool
    ensures { result ≡ not (set.is_disjoint one.now other.now) }
{
    let together = one.union(other.copied()).len();
    one.len() + other.len() > together
}
