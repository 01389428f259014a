//! Loops over sets.

ghost use Rattle.std.specs.Prelude.{◌≡◌, ◌<◌, ◌≤◌, ℕ, not, false, true, IfSome, IfNone};
ghost use Rattle.std.specs.List.{find};
ghost use Rattle.std.specs.Option.{option_map};
ghost use Rattle.enumset.specs.Sets as set;

use enumset::{EnumSet, EnumSetType};

/// The granted rights that are not denied.
pub fn allowed<T: EnumSetType>(granted: &EnumSet<T>, denied: &EnumSet<T>) -> EnumSet<T>
    ensures { result ≡ set.difference granted.now denied.now }
{
    let mut allowed = EnumSet::new();
    for right in granted.iter() {
        if !denied.contains(right) {
            allowed.insert(right);
        }
    }
    allowed
}

/// How many of the granted rights are denied.
pub fn denied_count<T: EnumSetType>(granted: &EnumSet<T>, denied: &EnumSet<T>) -> usize
    ensures { result ≡ set.len (set.intersection granted.now denied.now) }
{
    let mut count = 0;
    for right in granted.iter() {
        if denied.contains(right) {
            count += 1;
        }
    }
    count
}

/// The first of the granted rights that is denied.
pub fn first_denied<T: EnumSetType>(granted: &EnumSet<T>, denied: &EnumSet<T>) -> Option<T>
    ensures { option_map T.elements.bit result
        ≡ find (set.contains denied.now) (set.ascending granted.now) }
{
    for right in granted.iter() {
        if denied.contains(right) {
            return Some(right);
        }
    }
    None
}

/// The first of the granted rights after one.
pub fn next_granted<T: EnumSetType>(granted: &EnumSet<T>, past: T) -> Option<T>
    ensures granted { IfSome result (λ right. set.contains granted.now (T.elements.bit right) ≡ true) }
    ensures later { IfSome result (λ right. T.elements.bit past < T.elements.bit right) }
    ensures least { IfSome result (λ right. (q : ℕ) → set.contains granted.now q ≡ true
        → T.elements.bit past < q → T.elements.bit right ≤ q) }
    ensures none { IfNone result ((q : ℕ) → set.contains granted.now q ≡ true → q ≤ T.elements.bit past) }
{
    let bit = EnumSet::bit_index(past);
    for right in granted.iter() {
        if EnumSet::bit_index(right) > bit {
            return Some(right);
        }
    }
    None
}

/// Whether no granted right is denied.
pub fn is_unhindered<T: EnumSetType>(granted: &EnumSet<T>, denied: &EnumSet<T>) -> bool
    ensures { result ≡ set.is_disjoint granted.now denied.now }
{
    for right in granted.iter() {
        if denied.contains(right) {
            return false;
        }
    }
    true
}

/// The granted rights that are not denied, taken out one after another.
pub fn allowed_in_turn<T: EnumSetType>(granted: EnumSet<T>, denied: &EnumSet<T>) -> EnumSet<T>
    ensures { result ≡ set.difference granted denied.now }
{
    let mut pending = granted;
    let mut allowed = EnumSet::new();
    while let Some(right) = pending.pop_first() {
        if !denied.contains(right) {
            allowed.insert(right);
        }
    }
    allowed
}

/// The granted rights that are not denied, kept by a test that looks at another set.
pub fn keep_allowed<T: EnumSetType>(granted: &mut EnumSet<T>, denied: &EnumSet<T>)
    ensures { granted.new ≡ set.difference granted.old denied.now }
{
    granted.retain(|right| !denied.contains(right));
}

/// Grants more rights, and returns whether one of them is new. If none is, nothing changes.
pub fn gain<T: EnumSetType>(granted: &mut EnumSet<T>, more: &EnumSet<T>) -> bool
    ensures granted { granted.new ≡ set.union granted.old more.now }
    ensures is_new { result ≡ not (set.is_subset more.now granted.old) }
    ensures same { result ≡ false → granted.new ≡ granted.old }
{
    granted.union_with(more)
}
