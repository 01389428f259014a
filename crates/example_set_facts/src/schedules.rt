//! Days on which somebody is free, and shifts that go round the end of a week.

ghost use Rattle.std.specs.Prelude.{◌≡◌, ◌↔◌, ◌<◌, ◌≤◌, ◌+◌, ◌&&◌, ◌∷◌, [], ℕ, not, true, false, if◌then◌else◌, IfSome, IfNone, option_map};
ghost use Rattle.enumset.specs.Sets as set;
ghost use Rattle.enumset.specs.Sets.{least, valid_bits};
ghost use Rattle.example_set_facts.specs.Bits.{day};

use crate::weekdays::Weekday;
use enumset::{EnumSet, EnumSetType, enum_set};

/// The next free day of this week, from a day on.
pub fn next_this_week(free: EnumSet<Weekday>, from: Weekday) -> Option<Weekday>
    ensures least { option_map day result ≡ least (set.difference free (set.below (day from))) }
    ensures free { IfSome result (λ d. set.contains free (day d) ≡ true) }
    ensures later { IfSome result (λ d. day from ≤ day d) }
    ensures next { IfSome result (λ d. (q : ℕ) → set.contains free q ≡ true → day from ≤ q → day d ≤ q) }
    ensures none { IfNone result ((q : ℕ) → set.contains free q ≡ true → q < day from) }
{
    free.first_from(EnumSet::bit_index(from))
}

/// The days on which two are free and a third is not away.
pub fn meeting_days(
    one: &EnumSet<Weekday>,
    other: &EnumSet<Weekday>,
    away: &EnumSet<Weekday>,
) -> EnumSet<Weekday>
    ensures { result ≡ set.intersection (set.difference one.now away.now)
        (set.difference other.now away.now) }
{
    (*one & *other) - *away
}

/// Moves a shift from one day to another. There is a shift on the one day and none on the other.
pub fn moved(days: EnumSet<Weekday>, from: Weekday, to: Weekday) -> EnumSet<Weekday>
    requires on { set.contains days (day from) ≡ true }
    requires off { set.contains days (day to) ≡ false }
    ensures moved { result ≡ set.insert (set.remove days (day from)) (day to) }
    ensures back { set.insert (set.remove result (day to)) (day from) ≡ days }
    ensures count { set.len result ≡ set.len days }
{
    (days - from) | to
}

/// Whether the days of two teams are the same, except for holidays.
pub fn agree_but(
    one: &EnumSet<Weekday>,
    other: &EnumSet<Weekday>,
    holidays: &EnumSet<Weekday>,
) -> bool
    ensures { result ≡ true
        ↔ (set.difference one.now holidays.now ≡ set.difference other.now holidays.now) }
{
    (*one ^ *other).is_subset(*holidays)
}

/// Books a day if it is free and no holiday, and returns whether it was. Otherwise nothing changes.
pub fn book(booked: &mut EnumSet<Weekday>, holidays: EnumSet<Weekday>, wanted: Weekday) -> bool
    requires { set.is_disjoint booked.old holidays ≡ true }
    ensures free { result ≡ (not (set.contains holidays (day wanted))
        && not (set.contains booked.old (day wanted))) }
    ensures booked { result ≡ true → booked.new ≡ set.insert booked.old (day wanted) }
    ensures refused { result ≡ false → booked.new ≡ booked.old }
    ensures apart { set.is_disjoint booked.new holidays ≡ true }
{
    !holidays.contains(wanted) && booked.insert(wanted)
}

/// Whether the shifts of three cover the week.
pub fn cover_week(one: &EnumSet<Weekday>, two: &EnumSet<Weekday>, three: &EnumSet<Weekday>) -> bool
    ensures { result ≡ true ↔ (set.union one.now (set.union two.now three.now)
        ≡ valid_bits ⟦<Weekday as EnumSetType>⟧.elements) }
{
    *one | *two | *three == EnumSet::all()
}

/// The next free day, from a day on. After the last of the week it is the first of the week.
pub fn next_free(free: EnumSet<Weekday>, from: Weekday) -> Option<Weekday>
    ensures next { let later = set.difference free (set.below (day from)) in option_map day result
        ≡ (if set.is_empty later then least free else least later) }
    ensures free { IfSome result (λ d. set.contains free (day d) ≡ true) }
    ensures this_week { IfSome result (λ d. (q : ℕ) → set.contains free q ≡ true → day from ≤ q
        → (day from ≤ day d) × (day d ≤ q)) }
    ensures none { IfNone result (free ≡ set.empty) }
{
    match next_this_week(free, from) {
        Some(later) => Some(later),
        None => free.first(),
    }
}

/// How many days of a week are left free.
pub fn free_count(busy: EnumSet<Weekday>) -> usize
    ensures free { result ≡ set.len (set.difference (valid_bits ⟦<Weekday as EnumSetType>⟧.elements) busy) }
    ensures busy { result + set.len busy ≡ 7 }
{
    7 - busy.len()
}

/// The days on which nobody works.
pub fn weekend() -> EnumSet<Weekday>
    ensures { result ≡ set.insert (set.only (day Weekday.Saturday)) (day Weekday.Sunday) }
{
    enum_set!(Weekday::Saturday | Weekday::Sunday)
}

/// The days from Monday to Friday.
pub fn working_week() -> EnumSet<Weekday>
    ensures { result ≡ set.from_list (day Weekday.Monday ∷ day Weekday.Tuesday ∷ day Weekday.Wednesday
        ∷ day Weekday.Thursday ∷ day Weekday.Friday ∷ []) }
{
    EnumSet::from([
        Weekday::Monday,
        Weekday::Tuesday,
        Weekday::Wednesday,
        Weekday::Thursday,
        Weekday::Friday,
    ])
}
