//! Alarms that are raised, acknowledged and cleared.

ghost use Rattle.std.specs.Prelude.{◌≡◌, ◌≤◌, ◌+◌, ◌&&◌, ◌||◌, ◌∷◌, ℕ, not, true, false, if◌then◌else◌, IfSome, IfNone};
ghost use Rattle.enumset.specs.Sets as set;
ghost use Rattle.enumset.specs.Sets.{valid_bits};
ghost use Rattle.example_set_facts.specs.Bits.{alarm};

use crate::plant::Alarm;
use enumset::{EnumSet, EnumSetType};

/// The alarms that are new since the last report.
pub fn raised_since(before: &EnumSet<Alarm>, now: &EnumSet<Alarm>) -> EnumSet<Alarm>
    ensures new { result ≡ set.difference now.now before.now }
    ensures rest { set.union result (set.intersection before.now now.now) ≡ now.now }
    ensures none { result ≡ set.empty → set.is_subset now.now before.now ≡ true }
{
    *now - *before
}

/// The active alarms that stay active: those that are not both cleared and acknowledged.
pub fn latched(
    active: &EnumSet<Alarm>,
    cleared: &EnumSet<Alarm>,
    acknowledged: &EnumSet<Alarm>,
) -> EnumSet<Alarm>
    ensures each { (q : ℕ) → set.contains result q ≡ (set.contains active.now q
        && (not (set.contains cleared.now q) || not (set.contains acknowledged.now q))) }
    ensures parts { result ≡ set.union (set.difference active.now cleared.now)
        (set.difference active.now acknowledged.now) }
{
    *active - (*cleared & *acknowledged)
}

/// Moves an alarm from the pending ones to the known ones if it is pending, and returns whether it was.
pub fn acknowledge(pending: &mut EnumSet<Alarm>, known: &mut EnumSet<Alarm>, seen: Alarm) -> bool
    requires { set.is_disjoint pending.old known.old ≡ true }
    ensures was_pending { result ≡ set.contains pending.old (alarm seen) }
    ensures pending { pending.new ≡ set.remove pending.old (alarm seen) }
    ensures known { known.new
        ≡ (if result then set.insert known.old (alarm seen) else known.old) }
    ensures whole { set.union pending.new known.new ≡ set.union pending.old known.old }
    ensures apart { set.is_disjoint pending.new known.new ≡ true }
    ensures closed { set.contains pending.new (alarm seen) ≡ false }
{
    let was_pending = pending.remove(seen);
    if was_pending {
        known.insert(seen);
    }
    was_pending
}

/// The greatest active alarm that is not muted.
pub fn most_urgent(active: &EnumSet<Alarm>, muted: &EnumSet<Alarm>) -> Option<Alarm>
    ensures active { IfSome result (λ t. set.contains active.now (alarm t) ≡ true) }
    ensures heard { IfSome result (λ t. set.contains muted.now (alarm t) ≡ false) }
    ensures greatest { IfSome result (λ t. (q : ℕ) → set.contains active.now q ≡ true
        → set.contains muted.now q ≡ false → q ≤ alarm t) }
    ensures none { IfNone result (set.is_subset active.now muted.now ≡ true) }
{
    (*active - *muted).last()
}

/// Takes the two least alarms out, if there are two. If there are fewer, nothing changes.
pub fn take_two(active: &mut EnumSet<Alarm>) -> Option<(Alarm, Alarm)>
    ensures least { IfSome result (λ two. set.ascending active.old
        ≡ alarm two.0 ∷ alarm two.1 ∷ set.ascending active.new) }
    ensures both { IfSome result (λ two. set.insert (set.insert active.new (alarm two.0))
        (alarm two.1) ≡ active.old) }
    ensures gone { IfSome result (λ two. set.contains active.new (alarm two.0) ≡ false) }
    ensures fewer { IfNone result (set.len active.old ≤ 1) }
    ensures kept { IfNone result (active.new ≡ active.old) }
{
    let mut left = *active;
    let first = left.pop_first()?;
    let second = left.pop_first()?;
    *active = left;
    Some((first, second))
}

/// The active alarms that are not muted.
pub fn heard(active: EnumSet<Alarm>, muted: EnumSet<Alarm>) -> EnumSet<Alarm>
    ensures { result ≡ set.difference active muted }
{
    active & !muted
}

/// The alarms that are not muted and those that are: all alarms of the plant.
pub fn muted_or_not(muted: EnumSet<Alarm>) -> EnumSet<Alarm>
    ensures { result ≡ valid_bits ⟦<Alarm as EnumSetType>⟧.elements }
{
    !muted | muted
}

/// Takes out the alarms that are cleared, and returns how many they are.
// `decided` and `counts`: a clause about members and two about how many, after `retain`.
#[tactic(auto, using(enumset::specs::Sets::decided, enumset::specs::Sets::counts))]
pub fn clear(active: &mut EnumSet<Alarm>, cleared: &EnumSet<Alarm>) -> usize
    ensures left { active.new ≡ set.retain active.old (λ q. not (set.contains cleared.now q)) }
    ensures count { result ≡ set.len (set.difference active.old active.new) }
    ensures counts { result + set.len active.new ≡ set.len active.old }
{
    let before = active.len();
    active.retain(|alarm| !cleared.contains(alarm));
    before - active.len()
}
