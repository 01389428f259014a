//! Schedules as texts.

ghost use Rattle.std.specs.Prelude.{◌≡◌, IfOk, IfErr};
ghost use Rattle.example_weekdays.specs.Schedules.{days_in, schedules_in, IsFaultOf};

use crate::fault::Fault;
use crate::weekday::Weekday;
use enumset::{EnumSet, EnumSetNames};
use std::alloc::Global;

/// The days of each line, such as `ann: Monday Friday`. Empty lines are skipped. The fault is that of the first line
/// that has one, or says that memory ran out.
pub fn read_schedules(alloc: Global, text: &str) -> Result<Vec<EnumSet<Weekday>>, Fault<'_>>
    ensures schedules { IfOk result (λ schedules. schedules_in text.now ≡ Ok schedules.items) }
    ensures fault { IfErr result (IsFaultOf (schedules_in text.now)) }
{
    let mut schedules = Vec::new(alloc);
    for (place, line) in text.lines().enumerate() {
        if !line.is_empty() {
            schedules.push(read_days(line, place + 1)?)?;
        }
    }
    Ok(schedules)
}

/// The days of a line with this number, which follow its first colon.
fn read_days(line: &str, number: usize) -> Result<EnumSet<Weekday>, Fault<'_>>
    ensures days { IfOk result (λ days. days_in number line.now ≡ Ok days) }
    ensures fault { IfErr result (IsFaultOf (days_in number line.now)) }
{
    let Some((_name, words)) = line.split_once(':') else {
        return Err(Fault::NoName(number));
    };
    let mut days = EnumSet::new();
    for word in words.split_ascii_whitespace() {
        days.insert(Weekday::of_name(word).ok_or(Fault::NoDay(number, word))?);
    }
    Ok(days)
}
