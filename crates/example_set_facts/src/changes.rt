//! Changes between two versions of a configuration.

ghost use Rattle.std.specs.Prelude.{◌≡◌, ◌↔◌, true, false, not, map, count_by, position, option_map};
ghost use Rattle.std.specs.List.{list_all, list_any, find};
ghost use Rattle.enumset.specs.Sets as set;
ghost use Rattle.enumset.specs.Sets.{BitSet};
ghost use Rattle.example_set_facts.specs.Bits.{feature};

use crate::features::Feature;
use enumset::EnumSet;

/// What a version adds to the one before, and what it removes.
#[derive(Clone, Copy, Debug)]
pub struct Change {
    pub added: EnumSet<Feature>,
    pub removed: EnumSet<Feature>,
}

impl Change {
    /// The change from one version to another.
    pub fn between(old: EnumSet<Feature>, new: EnumSet<Feature>) -> Change
        ensures added { result.added ≡ set.difference new old }
        ensures removed { result.removed ≡ set.difference old new }
        ensures apart { set.is_disjoint result.added result.removed ≡ true }
        ensures both { set.union result.added result.removed ≡ set.symmetric_difference old new }
    {
        Change {
            added: new - old,
            removed: old - new,
        }
    }

    /// The version after a change.
    pub fn applied(&self, old: EnumSet<Feature>) -> EnumSet<Feature>
        ensures applied { result ≡ set.union (set.difference old self.now.removed) self.now.added }
        ensures added { set.is_subset self.now.added result ≡ true }
    {
        (old - self.removed) | self.added
    }

    /// This change and a later one, as one change.
    pub fn then(&self, later: &Change) -> Change
        ensures added { result.added
            ≡ set.union (set.difference self.now.added later.now.removed) later.now.added }
        ensures removed { result.removed ≡ set.union self.now.removed later.now.removed }
        ensures in_turn { (version : BitSet)
            → set.union (set.difference version result.removed) result.added
            ≡ set.union (set.difference (set.union (set.difference version self.now.removed) self.now.added)
            later.now.removed) later.now.added }
    {
        Change {
            added: (self.added - later.removed) | later.added,
            removed: self.removed | later.removed,
        }
    }

    /// The change that undoes this one.
    pub fn reverted(&self) -> Change
        ensures added { result.added ≡ self.now.removed }
        ensures removed { result.removed ≡ self.now.added }
    {
        Change {
            added: self.removed,
            removed: self.added,
        }
    }

    /// Adds a feature, which the change then does not remove.
    pub fn add(&mut self, new: Feature)
        ensures added { self.new.added ≡ set.insert self.old.added (feature new) }
        ensures removed { self.new.removed ≡ set.remove self.old.removed (feature new) }
    {
        self.added.insert(new);
        self.removed.remove(new);
    }

    /// Whether a change leaves a version as it is.
    pub fn is_idle(&self, version: EnumSet<Feature>) -> bool
        requires { set.is_disjoint self.now.added self.now.removed ≡ true }
        ensures { result ≡ true
            ↔ (set.union (set.difference version self.now.removed) self.now.added ≡ version) }
    {
        self.added.is_subset(version) && self.removed.is_disjoint(version)
    }
}

/// A version, found again from the one before and the change to it.
pub fn replayed(old: EnumSet<Feature>, new: EnumSet<Feature>) -> EnumSet<Feature>
    ensures { result ≡ new }
{
    Change::between(old, new).applied(old)
}

/// A version with a change made twice: the second time changes nothing.
pub fn settled(change: &Change, version: EnumSet<Feature>) -> EnumSet<Feature>
    ensures { result ≡ set.union (set.difference version change.now.removed) change.now.added }
{
    change.applied(change.applied(version))
}

/// A version with a change made and undone again.
pub fn undone(change: &Change, version: EnumSet<Feature>) -> EnumSet<Feature>
    requires added { set.is_disjoint change.now.added version ≡ true }
    requires removed { set.is_subset change.now.removed version ≡ true }
    ensures { result ≡ version }
{
    change.reverted().applied(change.applied(version))
}

/// Two versions that were made from the same one, merged: where they differ, the change counts.
pub fn merged(
    base: &EnumSet<Feature>,
    ours: &EnumSet<Feature>,
    theirs: &EnumSet<Feature>,
) -> EnumSet<Feature>
    ensures changed { result ≡ set.symmetric_difference base.now
        (set.union (set.symmetric_difference base.now ours.now)
        (set.symmetric_difference base.now theirs.now)) }
    ensures ours { base.now ≡ theirs.now → result ≡ ours.now }
    ensures theirs { base.now ≡ ours.now → result ≡ theirs.now }
    ensures agreed { ours.now ≡ theirs.now → result ≡ ours.now }
    ensures added { set.is_subset (set.difference ours.now base.now) result ≡ true }
    ensures removed { set.is_disjoint (set.difference base.now theirs.now) result ≡ true }
{
    let kept = *ours & *theirs;
    let added = (*ours | *theirs) - *base;
    kept | added
}

/// Replaces a feature by another. The other is not enabled yet.
pub fn replaced(version: EnumSet<Feature>, old: Feature, new: Feature) -> EnumSet<Feature>
    requires { set.contains version (feature new) ≡ false }
    ensures removed { set.difference version result
        ≡ set.intersection version (set.only (feature old)) }
    ensures added { set.difference result version ≡ set.only (feature new) }
{
    let mut next = version;
    next.remove(old);
    next.insert(new);
    next
}

/// Whether one of many changes adds a feature.
pub fn is_added(changes: &[Change], wanted: Feature) -> bool
    ensures { result ≡ list_any (λ change. set.contains change.added (feature wanted)) changes.now }
{
    changes.iter().any(|change| change.added.contains(wanted))
}

/// The features that many changes add, together.
pub fn all_added(changes: &[Change]) -> EnumSet<Feature>
    ensures { result ≡ set.union_all (map (λ change. change.added) changes.now) }
{
    changes
        .iter()
        .fold(EnumSet::new(), |all, change| all | change.added)
}

/// The features that many changes add, united in a loop.
pub fn added_in_turn(changes: &[Change]) -> EnumSet<Feature>
    ensures { result ≡ set.union_all (map (λ change. change.added) changes.now) }
{
    let mut all = EnumSet::new();
    for change in changes {
        all |= change.added;
    }
    all
}

/// Whether no change of many removes a feature.
pub fn is_kept(changes: &[Change], wanted: Feature) -> bool
    ensures { result
        ≡ list_all (λ change. not (set.contains change.removed (feature wanted))) changes.now }
{
    changes
        .iter()
        .all(|change| !change.removed.contains(wanted))
}

/// How many of many changes add a feature.
pub fn adding_count(changes: &[Change], wanted: Feature) -> usize
    ensures { result ≡ count_by (λ change. set.contains change.added (feature wanted)) changes.now }
{
    changes
        .iter()
        .filter(|change| change.added.contains(wanted))
        .count()
}

/// The place of the first change that adds a feature.
pub fn first_adding(changes: &[Change], wanted: Feature) -> Option<usize>
    ensures { result ≡ position (λ change. set.contains change.added (feature wanted)) changes.now }
{
    changes
        .iter()
        .position(|change| change.added.contains(wanted))
}

/// The first change that adds a feature.
pub fn adding(changes: &[Change], wanted: Feature) -> Option<&Change>
    ensures { option_map (λ change. change.now) result
        ≡ find (λ change. set.contains change.added (feature wanted)) changes.now }
{
    changes.iter().find(|change| change.added.contains(wanted))
}

/// Whether one of many changes adds a feature, found in a loop.
pub fn is_added_somewhere(changes: &[Change], wanted: Feature) -> bool
    ensures { result ≡ list_any (λ change. set.contains change.added (feature wanted)) changes.now }
{
    for change in changes {
        if change.added.contains(wanted) {
            return true;
        }
    }
    false
}
