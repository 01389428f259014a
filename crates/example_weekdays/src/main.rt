//! Finds the next day of the week on which everybody is free.
//!
//! `example_weekdays SCHEDULES --from DAY` prints it, the given day included. Without `--from DAY` it is the next from
//! Monday on. The exit status is 0 if there is such a day, 1 if there is none, and 2 on a fault.
#![tactic(auto, using(enumset::specs::Sets::set_laws))]

ghost use Rattle.std.specs.Prelude.{◌≡◌, if◌then◌else◌, is_some, IfOk};
ghost use Rattle.std.specs.Process.{exit_status};

mod fault;
mod reader;
mod schedule;
mod weekday;

use enumset::EnumSetNames;
use reader::read_schedules;
use schedule::meeting_day;
use std::process::ExitCode;
use std::rt::{Env, Files};
use std::{env, fmt, fs, io};
use weekday::Weekday;

/// Prints the next day on which everybody is free.
fn print_day<R: Env + Files + Print + Eprint + AllocGlobal>(rt: &R) -> io::Result<ExitCode> {
    let words: Vec<String> = env::args(rt)?.skip(1).collect(rt.alloc())?;
    let (path, name) = match words.as_slice() {
        [path] => (path.as_str(), "Monday"),
        [path, option, day] if option.as_str() == "--from" => (path.as_str(), day.as_str()),
        _ => return stop(rt, "usage: example_weekdays SCHEDULES [--from DAY]"),
    };
    let Some(from) = Weekday::of_name(name) else {
        return stop(rt, format_args!("--from: no day `{name}`"));
    };
    let text = match fs::read_to_string(rt, path) {
        Ok(text) => text,
        Err(error) => return stop(rt, format_args!("{path}: {error}")),
    };
    let schedules = match read_schedules(rt.alloc(), text.as_str()) {
        Ok(schedules) => schedules,
        Err(fault) => return stop(rt, format_args!("{path}: {fault}")),
    };
    let day = meeting_day(&schedules, from);
    if let Some(day) = day {
        println!(rt; "{}", day.name())?;
    }
    Ok(status_of(&day))
}

/// The exit status of a run that found a day, or none: 0 or 1.
fn status_of(day: &Option<Weekday>) -> ExitCode
    ensures { exit_status result ≡ (if is_some day.now then 0 else 1) }
{
    match day {
        Some(_) => ExitCode::SUCCESS,
        None => ExitCode::FAILURE,
    }
}

/// Says why the program stops. The exit status is then 2.
fn stop(rt: &impl Eprint, why: impl fmt::Display + Drop) -> io::Result<ExitCode>
    ensures { IfOk result (λ status. exit_status status ≡ 2) }
{
    eprintln!(rt; "example_weekdays: {why}")?;
    Ok(ExitCode::from(2))
}

fn main(rt: HostRuntime) -> ExitCode {
    match print_day(&rt) {
        Ok(status) => status,
        Err(error) => {
            let _ = stop(&rt, error);
            ExitCode::from(2)
        }
    }
}
