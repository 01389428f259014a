//! Sets that are split into parts, and put together again.

ghost use Rattle.std.specs.Prelude.{◌≡◌, ◌↔◌, ◌≤◌, ◌+◌, ℕ, true, false, IfSome, IfNone, option_map};
ghost use Rattle.enumset.specs.Sets as set;
ghost use Rattle.enumset.specs.Sets.{least, greatest};

use enumset::{EnumSet, EnumSetType};

/// The part of a set inside another, and the part outside.
pub fn split<T: EnumSetType>(whole: &EnumSet<T>, inside: &EnumSet<T>) -> (EnumSet<T>, EnumSet<T>)
    ensures whole { set.union result.0 result.1 ≡ whole.now }
    ensures apart { set.is_disjoint result.0 result.1 ≡ true }
    ensures inside { result.0 ≡ set.intersection whole.now inside.now }
    ensures outside { result.1 ≡ set.difference whole.now inside.now }
    ensures count { set.len result.0 + set.len result.1 ≡ set.len whole.now }
{
    let part = whole.intersection(inside.copied());
    let rest = whole.difference(part.copied());
    (part, rest)
}

/// Whether two sets are the parts of a whole.
pub fn are_parts<T: EnumSetType>(whole: &EnumSet<T>, one: &EnumSet<T>, other: &EnumSet<T>) -> bool
    ensures { result ≡ true ↔ (set.is_subset one.now whole.now ≡ true)
        × (set.difference whole.now one.now ≡ other.now) }
{
    one.is_disjoint_from(other) && one.union(other.copied()) == whole.copied()
}

/// Moves an element from one part to the other. The whole stays, and so do the parts' being apart.
pub fn move_over<T: EnumSetType>(from: &mut EnumSet<T>, to: &mut EnumSet<T>, moved: T)
    requires is_in { set.contains from.old (T.elements.bit moved) ≡ true }
    requires apart { set.is_disjoint from.old to.old ≡ true }
    ensures whole { set.union from.new to.new ≡ set.union from.old to.old }
    ensures apart { set.is_disjoint from.new to.new ≡ true }
    ensures left { from.new ≡ set.remove from.old (T.elements.bit moved) }
    ensures moved { to.new ≡ set.insert to.old (T.elements.bit moved) }
{
    from.remove(moved);
    to.insert(moved);
}

/// Takes the first element out. What is left and the element make the set that was.
pub fn take_first<T: EnumSetType>(pending: &mut EnumSet<T>) -> Option<T>
    ensures first { option_map T.elements.bit result ≡ least pending.old }
    ensures taken { IfSome result (λ t. set.contains pending.old (T.elements.bit t) ≡ true) }
    ensures gone { IfSome result (λ t. set.contains pending.new (T.elements.bit t) ≡ false) }
    ensures whole { IfSome result (λ t. set.insert pending.new (T.elements.bit t) ≡ pending.old) }
    ensures within { set.is_subset pending.new pending.old ≡ true }
    ensures none { IfNone result (pending.new ≡ set.empty) }
{
    pending.pop_first()
}

/// Puts two parts together that are apart from a third.
pub fn joined<T: EnumSetType>(
    one: &EnumSet<T>,
    other: &EnumSet<T>,
    third: &EnumSet<T>,
) -> EnumSet<T>
    requires one { set.is_disjoint one.now third.now ≡ true }
    requires other { set.is_disjoint third.now other.now ≡ true }
    ensures apart { set.is_disjoint result third.now ≡ true }
    ensures back { set.difference (set.union result third.now) third.now ≡ result }
    ensures joined { result ≡ set.union other.now one.now }
{
    one.union(other.copied())
}

/// The elements of a whole that are outside one set, together with those inside it that another lacks.
pub fn regrouped<T: EnumSetType>(
    whole: &EnumSet<T>,
    one: &EnumSet<T>,
    other: &EnumSet<T>,
) -> EnumSet<T>
    ensures { result ≡ set.difference whole.now (set.intersection one.now other.now) }
{
    let outside = whole.difference(one.copied());
    let inside = whole.intersection(one.copied());
    outside.union(inside.difference(other.copied()))
}

/// The first and the last element, or nothing if there is none.
pub fn ends_of<T: EnumSetType>(members: &EnumSet<T>) -> Option<(T, T)>
    ensures least { option_map (λ ends. T.elements.bit ends.0) result ≡ least members.now }
    ensures greatest { option_map (λ ends. T.elements.bit ends.1) result ≡ greatest members.now }
    ensures first { IfSome result (λ ends. (q : ℕ) → set.contains members.now q ≡ true
        → T.elements.bit ends.0 ≤ q) }
    ensures last { IfSome result (λ ends. (q : ℕ) → set.contains members.now q ≡ true
        → q ≤ T.elements.bit ends.1) }
    ensures ordered { IfSome result (λ ends. T.elements.bit ends.0 ≤ T.elements.bit ends.1) }
{
    Some((members.first()?, members.last()?))
}
