//! Features, with all that they need in turn.

ghost use Rattle.std.specs.Prelude.{◌≡◌, ◌↔◌, ℕ, true};
ghost use Rattle.enumset.specs.Sets as set;
ghost use Rattle.enumset.specs.FixedPoints.{IsLeastClosed, IsReachable, union_over};
ghost use Rattle.example_fixed_points.specs.Features.{feature, needs_table};

use crate::feature::Feature;
use enumset::EnumSet;
use enumset::fixed_points::reachable;

/// What a feature needs by itself.
pub fn needs(of: Feature) -> EnumSet<Feature>
    ensures { result ≡ needs_table (feature of) }
{
    match of {
        Feature::Core => EnumSet::empty(),
        Feature::Net | Feature::Json | Feature::Metrics => EnumSet::only(Feature::Core),
        Feature::Tls | Feature::Http => EnumSet::only(Feature::Net),
        Feature::Api => EnumSet::from([Feature::Http, Feature::Json]),
    }
}

/// Features with all that they need, and all that this needs in turn.
pub fn with_needs(from: EnumSet<Feature>) -> EnumSet<Feature>
    ensures least { IsLeastClosed (union_over needs_table) from result }
    ensures reached { (q : ℕ) → (set.contains result q ≡ true) ↔ IsReachable needs_table from q }
{
    reachable(from, |of| needs(of))
}
