//! Features that are enabled, and what they need.

ghost use Rattle.std.specs.Prelude.{◌≡◌, ◌↔◌, true, false, IfOk, IfErr};
ghost use Rattle.enumset.specs.Sets as set;
ghost use Rattle.example_set_facts.specs.Bits.{feature};

use crate::features::Feature;
use enumset::EnumSet;

/// Enables a feature if all that it needs is enabled, and returns whether it did.
pub fn enable(enabled: &mut EnumSet<Feature>, new: Feature, needs: EnumSet<Feature>) -> bool
    ensures asked { result ≡ set.is_subset needs enabled.old }
    ensures enabled { result ≡ true → enabled.new ≡ set.insert enabled.old (feature new) }
    ensures refused { result ≡ false → enabled.new ≡ enabled.old }
    ensures met { result ≡ true → set.is_subset needs enabled.new ≡ true }
{
    if !needs.is_subset(*enabled) {
        return false;
    }
    enabled.insert(new);
    true
}

/// The enabled features with one more and all that it needs.
pub fn enabled_with(
    enabled: &EnumSet<Feature>,
    new: Feature,
    needs: &EnumSet<Feature>,
) -> EnumSet<Feature>
    ensures with { result ≡ set.union needs.now (set.insert enabled.now (feature new)) }
    ensures met { set.is_subset needs.now result ≡ true }
    ensures has { set.contains result (feature new) ≡ true }
{
    (*enabled | *needs) | new
}

/// Whether an enabled feature has what it needs.
pub fn is_supported(enabled: EnumSet<Feature>, of: Feature, needs: EnumSet<Feature>) -> bool
    ensures { result ≡ true
        ↔ (set.contains enabled (feature of) ≡ true → set.difference needs enabled ≡ set.empty) }
{
    !enabled.contains(of) || needs.is_subset(enabled)
}

/// Turns a feature on and off again, or off and on.
pub fn toggled_twice(enabled: &mut EnumSet<Feature>, of: Feature)
    ensures { enabled.new ≡ enabled.old }
{
    enabled.toggle(of);
    enabled.toggle(of);
}

/// Disables what depends on a feature, and the feature. What else is enabled stays.
pub fn disable(enabled: &mut EnumSet<Feature>, old: Feature, dependents: EnumSet<Feature>)
    ensures left { enabled.new
        ≡ set.difference enabled.old (set.insert dependents (feature old)) }
    ensures gone { set.contains enabled.new (feature old) ≡ false }
    ensures apart { set.is_disjoint dependents enabled.new ≡ true }
{
    enabled.remove_all(dependents);
    enabled.remove(old);
}

/// The needs that are still to be met after one feature is dropped.
pub fn open_needs(
    enabled: EnumSet<Feature>,
    needs: EnumSet<Feature>,
    dropped: Feature,
) -> EnumSet<Feature>
    requires { set.is_subset needs enabled ≡ true }
    ensures { result ≡ set.intersection needs (set.only (feature dropped)) }
{
    needs - (enabled - dropped)
}

/// The features that are on by default or turned on, and not turned off.
pub fn overridden(
    defaults: &EnumSet<Feature>,
    on: &EnumSet<Feature>,
    off: &EnumSet<Feature>,
) -> EnumSet<Feature>
    ensures overridden { result ≡ set.union (set.difference defaults.now off.now)
        (set.difference on.now off.now) }
    ensures off_last { set.is_disjoint off.now result ≡ true }
    ensures on { set.is_disjoint on.now off.now ≡ true → set.is_subset on.now result ≡ true }
{
    let mut enabled = *defaults;
    enabled.insert_all(*on);
    enabled.remove_all(*off);
    enabled
}

/// The enabled features if all needs are among them, else the needs that are not.
pub fn resolved(
    enabled: EnumSet<Feature>,
    needs: EnumSet<Feature>,
) -> Result<EnumSet<Feature>, EnumSet<Feature>>
    ensures ok { IfOk result (λ s. (s ≡ enabled) × (set.is_subset needs s ≡ true)) }
    ensures err { IfErr result (λ s. (s ≡ set.difference needs enabled) × (set.is_empty s ≡ false)) }
{
    let missing = needs - enabled;
    if missing.is_empty() {
        Ok(enabled)
    } else {
        Err(missing)
    }
}
