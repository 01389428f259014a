//! What features need, and what is needed in turn, until nothing is added.

ghost use Rattle.std.specs.Prelude.{◌≡◌};
ghost use Rattle.enumset.specs.FixedPoints.{IsLeastClosed, leading_to, union_over};
ghost use Rattle.enumset.specs.Sets as set;
ghost use Rattle.example_set_facts.specs.Bits.{feature};
ghost use Rattle.example_set_facts.specs.Needs.{needs, all_features, users};

use crate::features::Feature;
use enumset::fixed_points::reachable;
use enumset::{EnumSet, enum_set};

/// What a feature needs by itself.
pub fn needs_of(of: Feature) -> EnumSet<Feature>
    ensures { result ≡ needs (feature of) }
{
    match of {
        Feature::Accounts => EnumSet::empty(),
        Feature::Payments => enum_set!(Feature::Accounts),
        Feature::Invoices => enum_set!(Feature::Accounts | Feature::Payments),
        Feature::Reports => enum_set!(Feature::Invoices),
        Feature::Exports => enum_set!(Feature::Reports),
        Feature::Alerts => {
            Feature::Accounts | Feature::Payments | Feature::Invoices | Feature::Reports
        }
    }
}

/// What features need, each by itself.
pub fn needed(features: &EnumSet<Feature>) -> EnumSet<Feature>
    ensures { result ≡ union_over needs features.now }
{
    let mut all = EnumSet::new();
    for feature in features.iter() {
        all.insert_all(needs_of(feature));
    }
    all
}

/// Features with all that they need, and all that this needs in turn: the least set that has them and lacks nothing.
pub fn with_needs(from: EnumSet<Feature>) -> EnumSet<Feature>
    ensures { IsLeastClosed (union_over needs) from result }
{
    let mut reached = from;
    while reached.union_with(&needed(&reached)) {}
    reached
}

/// The same by the call `reachable`.
pub fn reachable_needs(from: EnumSet<Feature>) -> EnumSet<Feature>
    ensures { IsLeastClosed (union_over needs) from result }
{
    reachable(from, |of| needs_of(of))
}

/// The same by a worklist: each feature is done once.
pub fn needed_in_turn(from: EnumSet<Feature>) -> EnumSet<Feature>
    ensures { IsLeastClosed (union_over needs) from result }
{
    let mut done = EnumSet::new();
    let mut pending = from;
    while let Some(feature) = pending.pop_first() {
        if done.insert(feature) {
            pending |= needs_of(feature) - done;
        }
    }
    done
}

/// The features that need a feature by themselves.
// `against` is a term that stays closed, and the valid bits are those of its definition.
#[tactic(auto, using(enumset::specs::Sets::set_laws), unfolding(enumset::specs::Sets::valid_bits, crate::specs::Needs::against))]
pub fn users_of(of: Feature) -> EnumSet<Feature>
    ensures { result ≡ users (feature of) }
{
    let mut all = EnumSet::all();
    all.retain(|user| needs_of(user).contains(of));
    all
}

/// Features with all that need one of them, and all that need these in turn, found in passes over all features.
pub fn affected(from: EnumSet<Feature>) -> EnumSet<Feature>
    ensures { IsLeastClosed (leading_to all_features needs) from result }
{
    let mut reached = from;
    loop {
        let before = reached;
        for feature in EnumSet::<Feature>::all() {
            if !needs_of(feature).is_disjoint(reached) {
                reached.insert(feature);
            }
        }
        if reached == before {
            return reached;
        }
    }
}
