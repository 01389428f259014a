//! The next day on which everybody is free.

ghost use Rattle.std.specs.Prelude.{◌≡◌, ◌↔◌, IfSome, IsNone};
ghost use Rattle.enumset.specs.Sets as set;
ghost use Rattle.enumset.specs.Sets.{intersection_all};
ghost use Rattle.example_weekdays.specs.Week.{bit, day_after, week, IsNearest};

use crate::weekday::Weekday;
use enumset::{EnumSet, laws};

impl Weekday {
    /// The day after this one: after Sunday comes Monday.
    pub fn following(self) -> Weekday
        ensures { bit result ≡ day_after (bit self) }
    {
        match self {
            Weekday::Monday => Weekday::Tuesday,
            Weekday::Tuesday => Weekday::Wednesday,
            Weekday::Wednesday => Weekday::Thursday,
            Weekday::Thursday => Weekday::Friday,
            Weekday::Friday => Weekday::Saturday,
            Weekday::Saturday => Weekday::Sunday,
            Weekday::Sunday => Weekday::Monday,
        }
    }
}

/// The days on which everybody is free: each day, if there is nobody.
// `week` is the set of the numbers below 7: `bits_below` has the valid bits as a list.
#[tactic(auto, using(enumset::specs::Sets::set_laws), unfolding(enumset::specs::Sets::valid_bits))]
pub fn common_days(schedules: &[EnumSet<Weekday>]) -> EnumSet<Weekday>
    ensures { result ≡ intersection_all week schedules.now }
{
    laws::bits_below(7);
    let mut days = EnumSet::all();
    for schedule in schedules {
        days &= *schedule;
    }
    days
}

/// The nearest of the days, from a day on, going round the week.
pub fn nearest_day(days: EnumSet<Weekday>, from: Weekday) -> Option<Weekday>
    ensures none { IsNone result ↔ (days ≡ set.empty) }
    ensures nearest { IfSome result (λ day. IsNearest days (bit from) (bit day)) }
{
    laws::members_are_valid(&days);
    laws::bits_below(7);
    let mut day = from;
    // After seven days the week is over.
    for _ in 0..7u8 {
        if days.contains(day) {
            return Some(day);
        }
        day = day.following();
    }
    None
}

/// The nearest day, from a day on, on which everybody is free.
pub fn meeting_day(schedules: &[EnumSet<Weekday>], from: Weekday) -> Option<Weekday>
    ensures none { IsNone result ↔ (intersection_all week schedules.now ≡ set.empty) }
    ensures nearest { IfSome result (λ day.
        IsNearest (intersection_all week schedules.now) (bit from) (bit day)) }
{
    nearest_day(common_days(schedules), from)
}
