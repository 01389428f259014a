//! A door with a magnetic lock.
//!
//! `example_door` reads events from standard input, one a line. After each it prints which flags are set, or why the
//! event is refused. The exit status is 0 if all events are taken, 1 if one is refused, and 2 on a fault.
#![tactic(auto, using(enumset_sets::specs::Sets::set_laws))]

ghost use Rattle.std.specs.Prelude.{◌≡◌, if◌then◌else◌, is_ok, IfOk};
ghost use Rattle.std.specs.Process.{exit_status};

mod door;
mod event;
mod flag;
mod machine;

use door::Door;
use enumset_sets::EnumSet;
use event::Event;
use flag::Flag;
use machine::Refusal;
use std::process::ExitCode;
use std::{fmt, io};

/// Lets the events happen in turn, up to the first line that is not an event.
fn take_all<R: Input + Print + Eprint + AllocGlobal>(rt: &R) -> io::Result<ExitCode> {
    let mut door = Door::new();
    let mut status = 0;
    for (line, number) in rt.lines(rt.alloc()).zip(1..=u64::MAX) {
        let line = line?;
        let word = line.trim();
        let Some(event) = Event::named(word) else {
            return stop(rt, format_args!("line {number}: no event `{line}`"));
        };
        let taken = door.take(event);
        show(rt, word, taken, door.flags)?;
        status = status_after(status, &taken);
    }
    Ok(ExitCode::from(status))
}

/// The exit status after one more event: 1 if it was refused, else what the status was.
fn status_after(status: u8, taken: &Result<(), Refusal>) -> u8
    ensures { result ≡ (if is_ok taken.now then status else 1) }
{
    match taken {
        Ok(()) => status,
        Err(_) => 1,
    }
}

/// Prints the flags after an event, or why it was refused.
fn show<R: Print>(
    rt: &R,
    word: &str,
    taken: Result<(), Refusal>,
    flags: EnumSet<Flag>,
) -> io::Result<()> {
    match taken {
        Ok(()) => println!(rt; "{word}: [{flags}]"),
        Err(refusal) => println!(rt; "{word}: {refusal}"),
    }
}

/// Says why the program stops. The exit status is then 2.
fn stop(rt: &impl Eprint, why: impl fmt::Display + Drop) -> io::Result<ExitCode>
    ensures { IfOk result (λ status. exit_status status ≡ 2) }
{
    eprintln!(rt; "example_door: {why}")?;
    Ok(ExitCode::from(2))
}

fn main(rt: HostRuntime) -> ExitCode {
    match take_all(&rt) {
        Ok(status) => status,
        Err(error) => {
            let _ = stop(&rt, error);
            ExitCode::from(2)
        }
    }
}
